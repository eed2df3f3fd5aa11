ghost use Rattle.std.specs.Prelude.{◌≡◌, ◌%◌, ◌<◌, ℕ, true, length, map, slice_index};
ghost use mathlib.Core.Option.{some};
ghost use Rattle.sock_io.specs.LinkHalves.{end_of};
ghost use Rattle.sock_model.specs.SocketTableLayout.{request_index};
ghost use Rattle.seat_programs.specs.StepTables.{word_of, word_after};
ghost use Rattle.seat_programs.specs.Cores.{found_at, words_after};
ghost use Rattle.seat_states.specs.program_steps.specs.SoundSeats.{AllowsWord};
ghost use Rattle.seat_states.specs.ProgramStepsOfMachine.{step_of};
ghost use Rattle.machine_model.specs.MachineSteps.{IsOfLinks, OutsAfter, holders_after};

use seat_states::{LinkStep, TableStep};
use sock_io::{Ends, In, Out, Peer};
use sock_model::request_index;
use sock_words::Plan;

/// Makes a step on its word, and answers the word found; 0 where the step is none on a word.
pub fn step_word(plan: &Plan, words: &mut [u64], step: TableStep) -> u64
    requires there { (x : ℕ) → word_of plan.now (step_of step) ≡ some x → x < length words.old }
    requires allowed { AllowsWord (step_of step) (found_at words.old (word_of plan.now (step_of step))) }
    ensures found { result ≡ found_at words.old (word_of plan.now (step_of step)) }
    ensures words { words.new ≡ words_after words.old (word_of plan.now (step_of step)) (word_after (step_of step) (found_at words.old (word_of plan.now (step_of step)))) }
{
    match step.index(plan) {
        Some(index) => {
            let found = words[index];
            words[index] = step.word_after(found);
            found
        }
        None => 0,
    }
}

/// Whether the word of a request is there, and says that it is taken.
pub fn is_taken(plan: &Plan, words: &[u64], request: u16) -> bool
    ensures { result ≡ true → slice_index words.now (request_index plan.now request) % 2 ≡ 1 }
{
    let index = request_index(plan, request);
    index < words.len() && words[index] % 2 == 1
}

/// A seat takes a link or puts it back: who has each link in hand.
pub fn pass_link(holders: &mut [Option<u16>], seat: u16, step: TableStep)
    requires { IsOfLinks (length holders.old) (step_of step) }
    ensures { holders.new ≡ holders_after seat (step_of step) holders.old }
{
    match step {
        TableStep::Link(LinkStep::TakeLink(link)) => holders[usize::from(link)] = Some(seat),
        TableStep::Link(LinkStep::PutLink(link)) => holders[usize::from(link)] = None,
        _ => {}
    }
}

/// Ends the writing half of a link, if this is the step.
pub fn end_link<O: Out, I: In, P: Peer>(ends: &mut [Ends<O, I, P>], step: TableStep)
    requires { IsOfLinks (length ends.old) (step_of step) }
    ensures outs { OutsAfter (step_of step) (map (λ (e : _). O.state e.out) ends.old) (map (λ (e : _). O.state e.out) ends.new) }
    ensures inns { map (λ (e : _). I.state e.inn) ends.new ≡ map (λ (e : _). I.state e.inn) ends.old }
    ensures ends { map (λ (e : _). end_of (O.state e.out) (I.state e.inn)) ends.new ≡ map (λ (e : _). end_of (O.state e.out) (I.state e.inn)) ends.old }
{
    if let TableStep::Link(LinkStep::FinishLink(link)) = step {
        ends[usize::from(link)].out.finish();
    }
}
