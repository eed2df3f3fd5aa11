ghost use Rattle.std.specs.Prelude.{◌≡◌, ◌≢◌, ◌<◌, [], Some, None, OnOk, OnErr, option_map, length, slice_set, slice_index_or};
ghost use mathlib.Core.Option.{some};
ghost use lib.ListN.{get_elem?};
ghost use Rattle.machine_model.specs.declared.home_message.HomeMessage.{HomeMessage};
ghost use Rattle.message_parts.specs.Parcels.{parcel_of, outgoing_of};
ghost use Rattle.client_seats.specs.ClientSeatState.{bytes_of, message_in, call_in};
ghost use Rattle.machine_model.specs.LetterHomes.{letters_in};

use client_seats::InHand;
use machine_model::HomeMessage;
use message_parts::OutgoingParcel;
use seat_states::Author;
use sock_io::NoMemory;
use std::alloc::Global;

/// The message that a seat has in hand goes to the home of a request, for its author. The memory is for the message there.
pub fn put_message(
    alloc: Global,
    letters: &mut [Option<Box<HomeMessage>>],
    request: u16,
    author: Author,
    hand: &mut InHand,
) -> Result<(), NoMemory>
    requires there { request < length letters.old }
    requires some { bytes_of (message_in hand.old) ≢ [] }
    ensures letters { OnOk result ((letter : HomeMessage) × (letter.author ≡ author) × (Some (parcel_of letter.message) ≡ message_in hand.old) × (letters_in letters.new ≡ slice_set (letters_in letters.old) request (Some letter))) }
    ensures rest { OnOk result ((message_in hand.new ≡ None) × (call_in hand.new ≡ call_in hand.old)) }
    ensures err { OnErr result (letters.new ≡ letters.old) }
{
    if let Some(message) = hand.take_message() {
        let Ok(letter) = Box::new(alloc, HomeMessage { author, message }) else {
            return Err(NoMemory);
        };
        letters[usize::from(request)] = Some(letter);
    }
    Ok(())
}

/// The message of a request is taken out of its home; who sent it.
pub fn take_message(
    letters: &mut [Option<Box<HomeMessage>>],
    request: u16,
    out: &mut Option<OutgoingParcel>,
) -> Author
    requires there { (letter : HomeMessage) × (get_elem? (letters_in letters.old) request ≡ some (Some letter)) }
    ensures taken { (letter : HomeMessage) × (get_elem? (letters_in letters.old) request ≡ some (Some letter)) × (result ≡ letter.author) × (option_map outgoing_of out.new ≡ Some (record { left = (parcel_of letter.message).bytes; taken = 0; parts = (parcel_of letter.message).parts })) }
    ensures letters { letters_in letters.new ≡ slice_set (letters_in letters.old) request None }
{
    match letters[usize::from(request)].take() {
        Some(home) => {
            let letter = Box::into_inner(home);
            *out = Some(letter.message.begin());
            letter.author
        }
        None => Author::Send(0),
    }
}

/// A seat takes a link out of its home, of whose messages so many have places.
pub fn take_home(holders: &mut [Option<u16>], nexts: &[u32], link: u16, seat: u16) -> u32
    requires holders { link < length holders.old }
    requires nexts { link < length nexts.now }
    ensures holders { holders.new ≡ slice_set holders.old link (Some seat) }
    ensures places { result ≡ slice_index_or nexts.now link 0 }
{
    holders[usize::from(link)] = Some(seat);
    nexts[usize::from(link)]
}

/// A link goes home with so many places.
pub fn put_home(holders: &mut [Option<u16>], nexts: &mut [u32], link: u16, places: u32)
    requires holders { link < length holders.old }
    requires nexts { link < length nexts.old }
    ensures holders { holders.new ≡ slice_set holders.old link None }
    ensures nexts { nexts.new ≡ slice_set nexts.old link places }
{
    holders[usize::from(link)] = None;
    nexts[usize::from(link)] = places;
}
