ghost use Rattle.std.specs.Prelude.{◌≡◌, ◌++◌, ◌∷◌, [], ◌*◌, ◌^◌, ◌<◌, ◌≤◌, map, IfOk, OnOk};
ghost use Rattle.brpc_model.specs.DrawnSeatsAndScripts.{call_of, gen_item, gen_size, gen_operations, gen_draws, generated, setup, shaped, state_behind};
ghost use Rattle.brpc_model.specs.Items as model;
ghost use Rattle.brpc_model.specs.Script.{script_of};
ghost use Rattle.brpc_model.specs.ScriptText.{script_text};
ghost use Rattle.script_items.specs.LineMeaning.{item};

use crate::draws::Draws;
use script_items::{CallLine, Line, Name, Names, OpenLine, SendLine};
use sock_io::NoMemory;
use sock_words::{OwnedBytes, Shape};
use std::alloc::{AllocError, Global};

/// A name.
fn make_name(alloc: Global, text: &[u8]) -> Result<Name, AllocError>
    ensures { IfOk result (λ n. n ≡ text.now) }
{
    Ok(Name::new(Vec::from_slice(alloc, text)?))
}

/// Bytes of a line.
fn make_bytes(alloc: Global, text: &[u8]) -> Result<OwnedBytes, AllocError>
    ensures { IfOk result (λ b. b ≡ text.now) }
{
    Ok(OwnedBytes::new(Vec::from_slice(alloc, text)?))
}

/// An `open`.
fn open_line(
    alloc: Global,
    name: &[u8],
    piece: u32,
    again: u32,
    serve: bool,
) -> Result<Line, AllocError>
    ensures { IfOk result (λ l. item l ≡ model.Open name.now (shaped piece again serve)) }
{
    let name = make_name(alloc, name)?;
    let shape = Shape {
        piece,
        again,
        fail: 0,
        serve,
        end: None,
    };
    Ok(Line::Open(OpenLine { name, shape }))
}

/// Appends an `open`.
fn push_link(
    alloc: Global,
    lines: &mut Vec<Line>,
    name: &[u8],
    piece: u32,
    again: u32,
    serve: bool,
) -> Result<(), AllocError>
    ensures { OnOk result (map item lines.new.items
        ≡ map item lines.old.items ++ (model.Open name.now (shaped piece again serve) ∷ [])) }
{
    lines.push(open_line(alloc, name, piece, again, serve)?)?;
    Ok(())
}

/// The four links of the setup.
fn setup_lines(alloc: Global) -> Result<Vec<Line>, AllocError>
    ensures { IfOk result (λ lines. map item lines.items ≡ setup) }
{
    let mut lines = Vec::new(alloc);
    push_link(alloc, &mut lines, b"a", 7, 0, false)?;
    push_link(alloc, &mut lines, b"b", 65_536, 2, false)?;
    push_link(alloc, &mut lines, b"c", 65_536, 0, true)?;
    push_link(alloc, &mut lines, b"d", 5, 0, true)?;
    Ok(lines)
}

/// A `send`.
fn send_line(alloc: Global, name: &[u8], bytes: Vec<u8>) -> Result<Line, AllocError>
    ensures { IfOk result (λ l. item l ≡ model.Send name.now bytes.items) }
{
    let name = make_name(alloc, name)?;
    let bytes = OwnedBytes::new(bytes);
    Ok(Line::Send(SendLine { name, bytes }))
}

/// A `call` of the service `Echo`.
fn call_line(
    alloc: Global,
    name: &[u8],
    method: &[u8],
    payload: Vec<u8>,
    retry: u8,
) -> Result<Line, AllocError>
    ensures { IfOk result (λ l. item l ≡ call_of name.now method.now payload.items retry) }
{
    let names = Names::new(make_name(alloc, name)?, None);
    let service = make_bytes(alloc, b"Echo")?;
    let method = make_bytes(alloc, method)?;
    Ok(Line::Call(CallLine {
        names,
        service,
        method,
        payload: OwnedBytes::new(payload),
        attachment: OwnedBytes::new(Vec::new(alloc)),
        retry,
    }))
}

/// The operation of this number, with these bytes.
fn operation_line(alloc: Global, number: u32, bytes: Vec<u8>) -> Result<Line, AllocError>
    ensures { IfOk result (λ l. item l ≡ gen_item number bytes.items) }
{
    match number % 4 {
        1 => send_line(alloc, b"a", bytes),
        2 => send_line(alloc, b"b", bytes),
        3 => call_line(alloc, b"c", b"Echo", bytes, 0),
        _ => call_line(alloc, b"d", b"Reverse", bytes, 1),
    }
}

/// How many bytes the operation of this number of a client has.
fn size_of_operation(client: u32, number: u32) -> usize
    requires client_in { (1 ≤ client) × (client < 2 ^ 16) }
    requires number_in { (1 ≤ number) × (number < 2 ^ 17) }
    ensures { result ≡ gen_size client number }
{
    (1 + (7 * (client - 1) + 5 * (number - 1)) % 64) as usize
}

/// Appends the operations of a client.
fn push_operations(
    alloc: Global,
    lines: &mut Vec<Line>,
    draws: &mut Draws,
    client: u32,
    ops: u32,
) -> Result<(), AllocError>
    requires client_in { (1 ≤ client) × (client < 2 ^ 16) }
    requires ops_in { ops < 2 ^ 16 }
    ensures lines { OnOk result (map item lines.new.items
        ≡ map item lines.old.items ++ gen_operations ops client 1 draws.old.state) }
    ensures draws { OnOk result (
        draws.new.state ≡ state_behind (gen_draws ops client 1) draws.old.state) }
{
    for before in 0..ops {
        let number = before + 1;
        let bytes = draws.bytes(alloc, size_of_operation(client, number))?;
        lines.push(operation_line(alloc, number, bytes)?)?;
    }
    Ok(())
}

/// The lines of the generated script.
fn generated_lines(
    alloc: Global,
    seed: u64,
    clients: u32,
    ops: u32,
) -> Result<Vec<Line>, AllocError>
    requires clients_in { clients < 2 ^ 16 }
    requires ops_in { ops < 2 ^ 16 }
    ensures { IfOk result (λ lines. map item lines.items ≡ generated seed clients ops) }
{
    let mut lines = setup_lines(alloc)?;
    let mut draws = Draws::new(seed);
    for before in 0..clients {
        lines.push(Line::Client)?;
        push_operations(alloc, &mut lines, &mut draws, before + 1, ops)?;
    }
    Ok(lines)
}

/// The lines of the script that a seed below 2^32 draws: four links, and 1 to 31 clients with at least one
/// operation each and at most 4,092 together. The operations of a client go round the four links,
/// two of them sends and two calls, with 1 to 64 bytes each, which are drawn client by client. The
/// rule is this project's own. It is read again from what is printed of it, and there is no
/// error but want of memory.
pub fn generate(alloc: Global, seed: u64, clients: u16, ops: u16) -> Result<Vec<Line>, NoMemory>
    requires seed_in { seed < 2 ^ 32 }
    requires some_clients { 1 ≤ clients }
    requires clients_in { clients ≤ 31 }
    requires some_ops { 1 ≤ ops }
    requires all_in { clients * ops ≤ 4092 }
    ensures exact { IfOk result (λ lines. map item lines.items ≡ generated seed clients ops) }
    ensures again { IfOk result (λ lines. script_of (script_text (map item lines.items)) ≡ Ok (map item lines.items)) }
{
    let lines = generated_lines(alloc, seed, u32::from(clients), u32::from(ops))?;
    Ok(lines)
}
