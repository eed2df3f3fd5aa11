// The rule of the table, and the names of its steps.
ghost use Rattle.sock_model.specs.ViewsOfSplitSeats.{joined, spent, lighter};
ghost use Rattle.sock_rule.specs.OnKey.{OnKey, opener_by, take_own_said, take_last_said, spend_said};
ghost use Rattle.sock_rule.specs.Shows.{shows, rose};
ghost use Rattle.sock_rule.specs.SocketSeatSplits.{giving, given, passed};
ghost use Rattle.sock_rule.specs.SocketPlays.{claim_told, birth_told, add_told, sub_told, fail_told, recycle_told, free_told, look_told, link_told, meet_told, meet_last_told, reset_told, wipe_told, code_told, read_told, store_told, find_told, find_name_told, put_told};
ghost use Rattle.sock_rule.specs.ChainPlays.{request_told, fill_told, ready_told, swap_told, connect_told, clean_told, note_fault_told, put_own_told, take_letter_told, place_told, drop_told, read_next_told, free_request_told, empty_told, turn_told};

use crate::homes::SockHome;
use crate::key::TableKey;
use atomic_table::{Join, Play, Split, TableRule};
use sock_io::Out;
use sock_model::View;

pub struct SockRule;

impl<O: Out> TableRule<SockHome<O>, View, TableKey> for SockRule {
    ghost holds = { OnKey };

    ghost first = { opener_by };
}

/// A seat is split off.
pub struct Give;

impl Split<View> for Give {
    ghost left = { giving };

    ghost right = { given };
}

/// A pass becomes a seat of its own.
pub struct PassOut;

impl Split<View> for PassOut {
    ghost left = { lighter };

    ghost right = { passed };
}

/// A seat takes in another.
pub struct TakeIn;

impl Join<View> for TakeIn {
    ghost both = { joined };

    ghost spent = { spent };
}

pub struct ClaimSlot;

impl<S> Play<S, View> for ClaimSlot {
    ghost then = { claim_told };
}

pub struct CreateLife;

impl<S> Play<S, View> for CreateLife {
    ghost then = { birth_told };
}

pub struct AddRef;

impl<S> Play<S, View> for AddRef {
    ghost then = { add_told };
}

pub struct SubRef;

impl<S> Play<S, View> for SubRef {
    ghost then = { sub_told };
}

pub struct SetOdd;

impl<S> Play<S, View> for SetOdd {
    ghost then = { fail_told };
}

pub struct Recycle;

impl<S> Play<S, View> for Recycle {
    ghost then = { recycle_told };
}

pub struct FreeSlot;

impl<S> Play<S, View> for FreeSlot {
    ghost then = { free_told };
}

pub struct LookWord;

impl<S> Play<S, View> for LookWord {
    ghost then = { look_told };
}

pub struct StoreLink;

impl<S> Play<S, View> for StoreLink {
    ghost then = { link_told };
}

pub struct MeetLink;

impl<S> Play<S, View> for MeetLink {
    ghost then = { meet_told };
}

pub struct MeetLast;

impl<S> Play<S, View> for MeetLast {
    ghost then = { meet_last_told };
}

pub struct ResetHead;

impl<S> Play<S, View> for ResetHead {
    ghost then = { reset_told };
}

pub struct ClearCode;

impl<S> Play<S, View> for ClearCode {
    ghost then = { wipe_told };
}

pub struct StoreCode;

impl<S> Play<S, View> for StoreCode {
    ghost then = { code_told };
}

pub struct ReadCode;

impl<S> Play<S, View> for ReadCode {
    ghost then = { read_told };
}

pub struct StoreId;

impl<S> Play<S, View> for StoreId {
    ghost then = { store_told };
}

pub struct FindId;

impl<S> Play<S, View> for FindId {
    ghost then = { find_told };
}

pub struct FindName;

impl<S> Play<S, View> for FindName {
    ghost then = { find_name_told };
}

pub struct PutLink;

impl<O: Out> Play<SockHome<O>, View> for PutLink {
    ghost then = { put_told rose };
}

pub struct TakeLast;

impl<O: Out> Play<SockHome<O>, View> for TakeLast {
    ghost then = { take_last_said };
}

pub struct SpendPass;

impl<O: Out> Play<SockHome<O>, View> for SpendPass {
    ghost then = { spend_said };
}

pub struct ClaimRequest;

impl<S> Play<S, View> for ClaimRequest {
    ghost then = { request_told };
}

pub struct FillHome;

impl<O: Out> Play<SockHome<O>, View> for FillHome {
    ghost then = { fill_told shows };
}

pub struct Unconnect;

impl<S> Play<S, View> for Unconnect {
    ghost then = { ready_told };
}

pub struct SwapHead;

impl<S> Play<S, View> for SwapHead {
    ghost then = { swap_told };
}

pub struct Connect;

impl<S> Play<S, View> for Connect {
    ghost then = { connect_told };
}

pub struct LookToWrite;

impl<S> Play<S, View> for LookToWrite {
    ghost then = { clean_told };
}

pub struct TakeOwn;

impl<O: Out> Play<SockHome<O>, View> for TakeOwn {
    ghost then = { take_own_said };
}

pub struct NoteFault;

impl<S> Play<S, View> for NoteFault {
    ghost then = { note_fault_told };
}

pub struct PutOwn;

impl<S> Play<S, View> for PutOwn {
    ghost then = { put_own_told };
}

pub struct TakeLetter;

impl<O: Out> Play<SockHome<O>, View> for TakeLetter {
    ghost then = { take_letter_told shows };
}

pub struct StorePlace;

impl<S> Play<S, View> for StorePlace {
    ghost then = { place_told };
}

pub struct DropPlace;

impl<O: Out> Play<SockHome<O>, View> for DropPlace {
    ghost then = { drop_told shows };
}

pub struct ReadNext;

impl<S> Play<S, View> for ReadNext {
    ghost then = { read_next_told };
}

pub struct FreeRequest;

impl<S> Play<S, View> for FreeRequest {
    ghost then = { free_request_told };
}

pub struct EmptyHead;

impl<S> Play<S, View> for EmptyHead {
    ghost then = { empty_told };
}

pub struct ReverseNext;

impl<S> Play<S, View> for ReverseNext {
    ghost then = { turn_told };
}
