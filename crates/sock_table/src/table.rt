use sock_io::Out;
use sock_rule::RuleTable;

/// The sockets of a plan, shared by threads.
/// bRPC's resource pool of sockets, whose ids are never reused (memory_management.md, versioned_ref_with_id.h).
#[derive(Drop)]
pub struct SockTable<O: Out> {
    pub rule: RuleTable<O>,
}
