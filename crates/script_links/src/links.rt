ghost use Rattle.std.specs.Prelude.{◌≡◌, ◌≤◌, ◌<◌, ◌+◌, ◌++◌, ◌∷◌, true, false, [], length, map, count_by, IfSome, OnOk, OnErr, IsErrOf, if◌then◌else◌};
ghost use Rattle.std.specs.List.{list_all, AllByRecursion};
ghost use Rattle.brpc_model.specs.ReturnedLink.{LinkEnd};
ghost use Rattle.sock_io.specs.declared.link.Ends.{Ends};
ghost use Rattle.brpc_model.specs.Items.{is_open};
ghost use Rattle.script_items.specs.LineMeaning.{item};
ghost use Rattle.sock_io.specs.FaultCauses.{OpenCause, Rose};
ghost use Rattle.sock_io.specs.LinkHalves.{end_of};
ghost use Rattle.script_links.specs.LinksGivenBack.{AreUntouched, AreNumbered, IsBeginning, SameConnections, has_piece, is_open_line, has_piece_line, spec_of, specs_of};
ghost use Rattle.script_links.specs.OfferedLinks.{AreAsked, TellOffers};
ghost use Rattle.script_links.specs.OpenedLinkEnds.{AreOpened};

use script_items::{Line, OpenLine};
use sock_io::{Ends, LinkSpec, Linker, Mode, OpenFault};

/// What a line asks of its link, made in this mode.
pub fn spec_of(mode: Mode, open: &OpenLine) -> LinkSpec
    ensures { result ≡ spec_of mode «open».now.shape }
{
    LinkSpec {
        mode,
        shape: open.shape,
    }
}

/// Opens the link of a line behind those that were opened before, where it is an `open` line.
fn open_line<L: Linker>(
    mode: Mode,
    line: &Line,
    links: &mut L,
    ends: &mut Vec<Ends<L::O, L::I, L::P>>,
) -> Result<(), OpenFault>
    requires piece { has_piece (item line.now) ≡ true }
    requires opened { length (L.state links.old).asked ≡ length ends.old.items }
    requires few { is_open (item line.now) ≡ true → length ends.old.items < 256 }
    ensures fresh { AreUntouched 0 (map (λ e. end_of (L.O.state e.out) (L.I.state e.inn)) ends.old.items) → AreUntouched 0 (map (λ e. end_of (L.O.state e.out) (L.I.state e.inn)) ends.new.items) }
    ensures unfinished { AllByRecursion (λ (e : Ends L.O L.I L.P). (L.O.state e.out).finished ≡ false) ends.old.items → AllByRecursion (λ (e : Ends L.O L.I L.P). (L.O.state e.out).finished ≡ false) ends.new.items }
    ensures unclosed { AllByRecursion (λ (e : Ends L.O L.I L.P). IfSome (L.I.state e.inn).closing (λ closing. closing ≡ false)) ends.old.items → AllByRecursion (λ (e : Ends L.O L.I L.P). IfSome (L.I.state e.inn).closing (λ closing. closing ≡ false)) ends.new.items }
    ensures prompt_each { (L.state links.old).always_ready ≡ true → mode ≡ Mode.Loop → AllByRecursion (λ (e : Ends L.O L.I L.P). (L.O.state e.out).always_ready ≡ true) ends.old.items → AllByRecursion (λ (e : Ends L.O L.I L.P). (L.O.state e.out).always_ready ≡ true) ends.new.items }
    ensures count { OnOk result (length ends.new.items ≡ length ends.old.items + (if is_open (item line.now) then 1 else 0)) }
    ensures err { OnErr result (length ends.new.items ≡ length ends.old.items) }
    ensures asked { OnOk result ((L.state links.new).asked ≡ (L.state links.old).asked ++ specs_of mode (item line.now ∷ [])) }
    ensures refused { OnErr result ((L.state links.new).asked ≡ (L.state links.old).asked) }
    ensures offers { OnOk result (TellOffers L.goes_by_shape L.O.state L.I.state → AreAsked L.goes_by_shape (L.state links.old).asked (map (λ e. L.O.state e.out) ends.old.items) (map (λ e. L.I.state e.inn) ends.old.items) → AreAsked L.goes_by_shape (L.state links.new).asked (map (λ e. L.O.state e.out) ends.new.items) (map (λ e. L.I.state e.inn) ends.new.items)) }
    ensures ends { OnOk result (AreOpened L.tells_in L.O.state L.P.state L.I.state (L.state links.old).asked ends.old.items → AreOpened L.tells_in L.O.state L.P.state L.I.state (L.state links.new).asked ends.new.items) }
    ensures opened { length (L.state links.new).asked ≡ length ends.new.items }
    ensures back { (L.state links.new).back ≡ (L.state links.old).back }
    ensures always_ready { (L.state links.new).always_ready ≡ (L.state links.old).always_ready }
    ensures connections { SameConnections (L.state links.old) (L.state links.new) }
    ensures cause { OpenCause (L.state links.old).faults (L.state links.new).faults result }
{
    let Line::Open(open) = line else {
        return Ok(());
    };
    if ends.try_reserve(1).is_err() {
        return Err(OpenFault::NoMemory);
    }
    let opened = links.open(&spec_of(mode, open))?;
    if ends.push(opened).is_err() {
        return Err(OpenFault::NoMemory);
    }
    Ok(())
}

/// Opens the link of each `open` line in this mode, in order. Where one can't be opened, those before it are in `ends`.
pub fn open_links<L: Linker>(
    mode: Mode,
    lines: &[Line],
    links: &mut L,
    ends: &mut Vec<Ends<L::O, L::I, L::P>>,
) -> Result<(), OpenFault>
    requires asked { (L.state links.old).asked ≡ [] }
    requires ends { ends.old.items ≡ [] }
    requires few { count_by is_open_line lines.now ≤ 256 }
    requires pieces { list_all has_piece_line lines.now ≡ true }
    ensures fresh { AreUntouched 0 (map (λ e. end_of (L.O.state e.out) (L.I.state e.inn)) ends.new.items) }
    ensures unfinished { AllByRecursion (λ (e : Ends L.O L.I L.P). (L.O.state e.out).finished ≡ false) ends.new.items }
    ensures unclosed { AllByRecursion (λ (e : Ends L.O L.I L.P). IfSome (L.I.state e.inn).closing (λ closing. closing ≡ false)) ends.new.items }
    ensures prompt_each { (L.state links.old).always_ready ≡ true → mode ≡ Mode.Loop → AllByRecursion (λ (e : Ends L.O L.I L.P). (L.O.state e.out).always_ready ≡ true) ends.new.items }
    ensures whole { OnOk result (length ends.new.items ≡ count_by is_open_line lines.now) }
    ensures most { length ends.new.items ≤ count_by is_open_line lines.now }
    ensures asked { OnOk result ((L.state links.new).asked ≡ specs_of mode (map item lines.now)) }
    ensures front { IsBeginning (L.state links.new).asked (specs_of mode (map item lines.now)) }
    ensures offers { OnOk result (TellOffers L.goes_by_shape L.O.state L.I.state → AreAsked L.goes_by_shape (L.state links.new).asked (map (λ e. L.O.state e.out) ends.new.items) (map (λ e. L.I.state e.inn) ends.new.items)) }
    ensures ends { OnOk result (AreOpened L.tells_in L.O.state L.P.state L.I.state (L.state links.new).asked ends.new.items) }
    ensures opened { length (L.state links.new).asked ≡ length ends.new.items }
    ensures back { (L.state links.new).back ≡ (L.state links.old).back }
    ensures always_ready { (L.state links.new).always_ready ≡ (L.state links.old).always_ready }
    ensures connections { SameConnections (L.state links.old) (L.state links.new) }
    ensures later { (L.state links.old).faults ≤ (L.state links.new).faults }
    ensures failed { IsErrOf result OpenFault.Failed → Rose (L.state links.old).faults (L.state links.new).faults }
    ensures kept { (¬ IsErrOf result OpenFault.Failed) → (L.state links.new).faults ≡ (L.state links.old).faults }
{
    for line in lines {
        open_line(mode, line, links, ends)?;
    }
    Ok(())
}

/// Gives one link back.
fn give_one<L: Linker>(links: &mut L, link: u16, ends: Ends<L::O, L::I, L::P>)
    requires own { (L.O.state ends.out).link ≡ link }
    requires opened { link < length (L.state links.old).asked }
    requires next { link ≡ length (L.state links.old).back }
    requires lower { AllByRecursion (λ (e : LinkEnd). e.link < link) (L.state links.old).back }
    ensures back { (L.state links.new).back ≡ (L.state links.old).back ++ end_of (L.O.state ends.out) (L.I.state ends.inn) ∷ [] }
    ensures lower { AllByRecursion (λ (e : LinkEnd). e.link < link + 1) (L.state links.new).back }
    ensures next { link + 1 ≡ length (L.state links.new).back }
    ensures asked { (L.state links.new).asked ≡ (L.state links.old).asked }
    ensures faults { (L.state links.new).faults ≡ (L.state links.old).faults }
    ensures always_ready { (L.state links.new).always_ready ≡ (L.state links.old).always_ready }
    ensures connections { SameConnections (L.state links.old) (L.state links.new) }
{
    links.back(link, ends);
}

/// Gives the links back, in order.
pub fn give_back<L: Linker>(links: &mut L, ends: Vec<Ends<L::O, L::I, L::P>>)
    requires numbered { AreNumbered 0 (map (λ e. end_of (L.O.state e.out) (L.I.state e.inn)) ends.items) }
    requires opened { length (L.state links.old).asked ≡ length ends.items }
    requires back { (L.state links.old).back ≡ [] }
    requires few { length ends.items ≤ 256 }
    ensures back { (L.state links.new).back ≡ map (λ e. end_of (L.O.state e.out) (L.I.state e.inn)) ends.items }
    ensures numbered { AreNumbered 0 (L.state links.new).back }
    ensures asked { (L.state links.new).asked ≡ (L.state links.old).asked }
    ensures faults { (L.state links.new).faults ≡ (L.state links.old).faults }
    ensures always_ready { (L.state links.new).always_ready ≡ (L.state links.old).always_ready }
    ensures connections { SameConnections (L.state links.old) (L.state links.new) }
{
    let mut link = 0u16;
    for ends in ends {
        give_one(links, link, ends);
        link = link.saturating_add(1);
    }
}
