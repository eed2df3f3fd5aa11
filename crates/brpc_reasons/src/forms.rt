ghost use Rattle.std.specs.Prelude.{◌≡◌};
ghost use Rattle.brpc_reasons.specs.CommandForms as model;

/// A word that a command takes behind its name.
#[derive(Clone, Copy)]
pub enum Parameter {
    Seed,
    Port,
    Clients,
    Operations,
    Connections,
}

/// A command.
#[derive(Clone, Copy)]
pub enum Form {
    Replay,
    Sim,
    Run,
    Gen,
    Load,
    Frames,
    Serve,
}

/// How the word is called.
pub fn name(parameter: Parameter) -> &'static [u8]
    ensures { result.now ≡ model.name parameter }
{
    match parameter {
        Parameter::Seed => b"SEED",
        Parameter::Port => b"PORT",
        Parameter::Clients => b"CLIENTS",
        Parameter::Operations => b"OPS",
        Parameter::Connections => b"N",
    }
}

/// The lowest number that it may be.
pub fn lowest(parameter: Parameter) -> u32
    ensures { result ≡ model.lowest parameter }
{
    match parameter {
        Parameter::Seed => 0,
        Parameter::Port | Parameter::Clients => 1,
        Parameter::Operations | Parameter::Connections => 1,
    }
}

/// The highest one.
pub fn highest(parameter: Parameter) -> u32
    ensures { result ≡ model.highest parameter }
{
    match parameter {
        Parameter::Seed => 4_294_967_295,
        Parameter::Port => 65_535,
        Parameter::Clients | Parameter::Connections => 31,
        Parameter::Operations => 4_092,
    }
}

/// Which number it is.
pub fn range_text(parameter: Parameter) -> &'static [u8]
    ensures { result.now ≡ model.range_text parameter }
{
    match parameter {
        Parameter::Seed => b"a number from 0 to 4294967295",
        Parameter::Port => b"a number from 1 to 65535",
        Parameter::Clients | Parameter::Connections => b"a number from 1 to 31",
        Parameter::Operations => b"a number from 1 to 4092",
    }
}

/// The form of a command.
pub fn form_text(form: Form) -> &'static [u8]
    ensures { result.now ≡ model.form_text form }
{
    match form {
        Form::Replay => b"replay",
        Form::Sim => b"sim SEED",
        Form::Run => b"run [PORT]",
        Form::Gen => b"gen SEED CLIENTS OPS",
        Form::Load => b"load SEED CLIENTS OPS",
        Form::Frames => b"frames",
        Form::Serve => b"serve PORT N",
    }
}

/// The command of this name.
pub fn form_of(word: &str) -> Option<Form>
    ensures { result ≡ model.form_of word.now }
{
    if word == "replay" {
        Some(Form::Replay)
    } else if word == "sim" {
        Some(Form::Sim)
    } else if word == "run" {
        Some(Form::Run)
    } else if word == "gen" {
        Some(Form::Gen)
    } else if word == "load" {
        Some(Form::Load)
    } else if word == "frames" {
        Some(Form::Frames)
    } else if word == "serve" {
        Some(Form::Serve)
    } else {
        None
    }
}

/// The command whose name has the longest beginning in common with a word, where they have one.
pub fn nearest(word: &[u8]) -> Option<Form>
    ensures { result ≡ model.nearest word.now }
{
    match word {
        [b's', b'e', ..] => Some(Form::Serve),
        [b's', ..] => Some(Form::Sim),
        [b'r', b'e', ..] => Some(Form::Replay),
        [b'r', ..] => Some(Form::Run),
        [b'g', ..] => Some(Form::Gen),
        [b'l', ..] => Some(Form::Load),
        [b'f', ..] => Some(Form::Frames),
        _ => None,
    }
}
