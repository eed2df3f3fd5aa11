ghost use Rattle.std.specs.Prelude.{◌≡◌};
ghost use Rattle.script_reasons.specs.ScriptFaultWords as model;

/// The form of the line that begins with these two letters.
fn form_by(a: u8, b: u8) -> &'static [u8]
    ensures { result.now ≡ model.form_by a b }
{
    match (a, b) {
        (b's', b'l') => b"; the form is slots N, from 1 to 31\n",
        (b'r', b'e') => b"; the form is requests N, from 1 to 4096\n",
        (b'f', b'i') => b"; the form is first V, an even number from 0 to 4294967292\n",
        (b'o', b'p') =>
            b"; the form is open NAME [piece=1..65536] [again=2..65536] [fail=1..65536] [serve] [end=0..65536]\n",
        (b'c', b'l') => b"; the form is client\n",
        (b's', b'e') => b"; the form is send NAME HEX\n",
        (b'c', b'a') =>
            b"; the form is call NAME[,NAME] SERVICE.METHOD HEX [att=HEX] [retry=0..6]\n",
        (b'e', b'x') => b"; the form is expire C.I\n",
        (b'j', b'o') => b"; the form is join C.I\n",
        (b'f', b'a') => b"; the form is fail NAME CODE, from 1500 to 1999\n",
        (b'h', b'o') => b"; the form is hold NAME\n",
        (b'd', b'r') => b"; the form is drop NAME\n",
        (b's', b'c') => b"; the form is sched\n",
        (b't', b'i') => b"; the form is tick SEAT N, from 1 to 65536\n",
        (b't', b'o') => b"; the form is to SEAT KIND\n",
        _ =>
            b"; a line begins with slots, requests, first, open, client, send, call, expire, join, fail, hold, drop, sched, tick and to\n",
    }
}

/// The form that is nearest to a first word.
pub fn nearest_form(word: &[u8]) -> &'static [u8]
    ensures { result.now ≡ model.nearest_form word.now }
{
    match word {
        [a, b, ..] => form_by(*a, *b),
        _ =>
            b"; a line begins with slots, requests, first, open, client, send, call, expire, join, fail, hold, drop, sched, tick and to\n",
    }
}

/// Where a bad number stands.
fn number_place(a: u8, b: u8) -> u32
    ensures { result ≡ model.number_place a b }
{
    match (a, b) {
        (b's', b'l') | (b'r', b'e') | (b'f', b'i') => 2,
        (b'e', b'x') | (b'j', b'o') | (b't', b'o') => 2,
        (b'f', b'a') => 3,
        _ => 0,
    }
}

/// Where bad bytes stand.
fn bytes_place(a: u8, b: u8) -> u32
    ensures { result ≡ model.bytes_place a b }
{
    match (a, b) {
        (b's', b'e') => 3,
        _ => 0,
    }
}

/// Where a bad name or a bad kind of step stands.
fn name_place(a: u8, b: u8) -> u32
    ensures { result ≡ model.name_place a b }
{
    match (a, b) {
        (b'o', b'p') | (b's', b'e') | (b'f', b'a') => 2,
        (b'h', b'o') | (b'd', b'r') => 2,
        (b't', b'o') => 3,
        _ => 0,
    }
}

/// Where the word at fault stands in a line that begins with these two letters.
fn place_by(kind: u8, a: u8, b: u8) -> u32
    ensures { result ≡ model.place_by kind a b }
{
    match kind {
        2 => 1,
        4 => number_place(a, b),
        5 | 6 => bytes_place(a, b),
        7 => name_place(a, b),
        10 | 12 => 2,
        _ => 0,
    }
}

/// Where the word at fault stands in a line with this first word, from 1 on; 0 where it is no word alone.
pub fn place_of(kind: u8, first: &[u8]) -> u32
    ensures { result ≡ model.place_of kind first.now }
{
    match first {
        [a, b, ..] => place_by(kind, *a, *b),
        _ => { if kind == 2 { 1 } else { 0 } }
    }
}
