ghost use Rattle.std.specs.Prelude.{◌≡◌, ◌∷◌, [], ◌≤◌, map, string_bytes, option_map, IfSome, IfNone, Some, ℕ, false};
ghost use Rattle.brpc_eng.specs.CommandWords.{command_of, asks_to_wait, sim_of, run_of, drawn_of, serve_of};
ghost use Rattle.brpc_eng.specs.CommandWords as model;
ghost use Rattle.brpc_eng.specs.Command.{meaning, waiting_meaning};

use crate::doors::Doors;
use crate::draw::Draw;
use script_items::number;

/// What the words of the command line ask for.
#[derive(Clone, Copy)]
pub enum Command {
    /// `replay`: a script is read and run by its own schedule.
    Replay,
    /// `sim SEED`: it is run by a drawn schedule.
    Sim(u32),
    /// `run [PORT]`: it is run on threads, over rings or over TCP to that port.
    Run(Option<u16>),
    /// `gen SEED CLIENTS OPS`: a script is drawn and printed.
    Gen(Draw),
    /// `load SEED CLIENTS OPS`: a script is drawn and run, and a summary is printed.
    Load(Draw),
    /// `frames`: the frames of the input are printed.
    Frames,
    /// `serve PORT N`: so many connections are served.
    Serve(Doors),
}

/// Those of them that may wait for ever.
#[derive(Clone, Copy)]
pub enum Waiting {
    /// `run [PORT]`: for the clients of the script.
    Run(Option<u16>),
    /// `serve PORT N`: for the connections.
    Serve(Doors),
}

/// The first word, and those behind it.
fn first_of(words: &[String]) -> Option<(&str, &[String])>
    ensures some { IfSome result (λ p. map string_bytes words.now ≡ p.0.now ∷ map string_bytes p.1.now) }
    ensures none { IfNone result (map string_bytes words.now ≡ []) }
{
    match words.split_first() {
        Some((word, more)) => Some((word.as_str(), more)),
        None => None,
    }
}

/// A command of no further words.
fn alone(command: Command, words: &[String]) -> Option<Command>
    ensures { option_map meaning result ≡ model.alone (meaning command) (map string_bytes words.now) }
{
    match first_of(words) {
        None => Some(command),
        Some(_) => None,
    }
}

/// `SEED` behind `sim`.
fn sim(words: &[String]) -> Option<Command>
    ensures { option_map meaning result ≡ sim_of (map string_bytes words.now) }
{
    let (seed, more) = first_of(words)?;
    if first_of(more).is_some() {
        return None;
    }
    let seed = number(seed.as_bytes(), 0, u32::MAX)?;
    Some(Command::Sim(seed))
}

/// `[PORT]` behind `run`.
fn run(words: &[String]) -> Option<Command>
    ensures { option_map meaning result ≡ run_of (map string_bytes words.now) }
{
    let Some((port, more)) = first_of(words) else {
        return Some(Command::Run(None));
    };
    if first_of(more).is_some() {
        return None;
    }
    let port = number(port.as_bytes(), 1, 65_535)?;
    Some(Command::Run(Some(port as u16)))
}

/// `SEED CLIENTS OPS` behind `gen` or `load`.
fn read_draw(words: &[String]) -> Option<Draw>
    ensures { (make : ℕ → ℕ → ℕ → model.Command) → option_map (λ d. make d.seed d.clients d.operations) result ≡ drawn_of make (map string_bytes words.now) }
{
    let (seed, more) = first_of(words)?;
    let (clients, more) = first_of(more)?;
    let (operations, more) = first_of(more)?;
    if first_of(more).is_some() {
        return None;
    }
    let seed = number(seed.as_bytes(), 0, u32::MAX)?;
    let clients = number(clients.as_bytes(), 1, 31)?;
    let operations = number(operations.as_bytes(), 1, 4_092)?;
    within_all(seed, clients, operations)
}

/// The draw, where it has at most 4,092 operations in all.
fn within_all(seed: u32, clients: u32, operations: u32) -> Option<Draw>
    requires some_clients { 1 ≤ clients }
    requires clients { clients ≤ 31 }
    requires some_operations { 1 ≤ operations }
    requires operations { operations ≤ 4092 }
    ensures { (make : ℕ → ℕ → ℕ → model.Command) → option_map (λ d. make d.seed d.clients d.operations) result ≡ model.in_all make seed clients operations }
{
    if clients * operations <= 4_092 {
        Some(Draw {
            seed,
            clients,
            operations,
        })
    } else {
        None
    }
}

/// `PORT N` behind `serve`.
fn serve(words: &[String]) -> Option<Command>
    ensures { option_map meaning result ≡ serve_of (map string_bytes words.now) }
{
    let (port, more) = first_of(words)?;
    let (connections, more) = first_of(more)?;
    if first_of(more).is_some() {
        return None;
    }
    let port = number(port.as_bytes(), 1, 65_535)?;
    let connections = number(connections.as_bytes(), 1, 31)?;
    Some(Command::Serve(Doors { port, connections }))
}

/// What the words of the command line ask for, where they have the form of a command.
pub fn read_command(words: &[String]) -> Option<Command>
    ensures { option_map meaning result ≡ command_of (map string_bytes words.now) }
{
    let (word, more) = first_of(words)?;
    if word == "replay" {
        alone(Command::Replay, more)
    } else if word == "sim" {
        sim(more)
    } else if word == "run" {
        run(more)
    } else if word == "gen" {
        Some(Command::Gen(read_draw(more)?))
    } else if word == "load" {
        Some(Command::Load(read_draw(more)?))
    } else if word == "frames" {
        alone(Command::Frames, more)
    } else if word == "serve" {
        serve(more)
    } else {
        None
    }
}

/// The command that may wait, where the words ask for one.
pub fn read_waiting(words: &[String]) -> Option<Waiting>
    ensures some { IfSome result (λ waiting. command_of (map string_bytes words.now) ≡ Some (waiting_meaning waiting)) }
    ensures none { IfNone result (asks_to_wait (map string_bytes words.now) ≡ false) }
{
    match read_command(words)? {
        Command::Run(port) => Some(Waiting::Run(port)),
        Command::Serve(doors) => Some(Waiting::Serve(doors)),
        Command::Replay | Command::Sim(_) | Command::Frames => None,
        Command::Gen(_) | Command::Load(_) => None,
    }
}

/// Whether the words ask for a command that may wait for ever.
pub fn asks_to_wait(words: &[String]) -> bool
    ensures { result ≡ asks_to_wait (map string_bytes words.now) }
{
    read_waiting(words).is_some()
}
