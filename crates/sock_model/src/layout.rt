ghost use Rattle.std.specs.Prelude.{◌≡◌, ◌*◌};
ghost use Rattle.sock_model.specs.SocketTableLayout.{tag_index, ref_index, link_index, head_index, code_index, name_index, open_index, request_index, next_index, place_index, all_words};

use sock_words::Plan;

/// The index of a slot's tag among the words of a table.
#[inline(always)]
pub fn tag_index(slot: u32) -> usize
    ensures { result ≡ tag_index slot }
{
    6 * slot as usize
}

/// The index of a slot's version and references.
#[inline(always)]
pub fn ref_index(slot: u32) -> usize
    ensures { result ≡ ref_index slot }
{
    6 * slot as usize + 1
}

/// The index of the link of a slot's life.
#[inline(always)]
pub fn link_index(slot: u32) -> usize
    ensures { result ≡ link_index slot }
{
    6 * slot as usize + 2
}

/// The index of a slot's head.
#[inline(always)]
pub fn head_index(slot: u32) -> usize
    ensures { result ≡ head_index slot }
{
    6 * slot as usize + 3
}

/// The index of the code with which a slot's life failed.
#[inline(always)]
pub fn code_index(slot: u32) -> usize
    ensures { result ≡ code_index slot }
{
    6 * slot as usize + 4
}

/// The index of the word of a name.
#[inline(always)]
pub fn name_index(plan: &Plan, name: u16) -> usize
    ensures { result ≡ name_index plan.now name }
{
    6 * plan.slots as usize + name as usize
}

/// The index of the word of an operation, which tells of its `open`.
#[inline(always)]
pub fn open_index(plan: &Plan, operation: u16) -> usize
    ensures { result ≡ open_index plan.now operation }
{
    6 * plan.slots as usize + plan.names as usize + operation as usize
}

/// The index of a request's word.
#[inline(always)]
pub fn request_index(plan: &Plan, request: u16) -> usize
    ensures { result ≡ request_index plan.now request }
{
    6 * plan.slots as usize + plan.names as usize + plan.operations as usize + request as usize
}

/// The index of a request's next word.
#[inline(always)]
pub fn next_index(plan: &Plan, request: u16) -> usize
    ensures { result ≡ next_index plan.now request }
{
    let open = 6 * plan.slots as usize + plan.names as usize;
    open + plan.operations as usize + plan.requests as usize + request as usize
}

/// The index of a message's place word.
#[inline(always)]
pub fn place_index(plan: &Plan, place: u32) -> usize
    ensures { result ≡ place_index plan.now place }
{
    let open = 6 * plan.slots as usize + plan.names as usize;
    let next = open + plan.operations as usize + plan.requests as usize;
    next + plan.requests as usize + place as usize
}

/// How many place words a table has: eight for each operation.
pub fn place_count(plan: &Plan) -> u32
    ensures { result ≡ 8 * plan.now.operations }
{
    8 * u32::from(plan.operations)
}

/// How many words a table has.
pub fn word_count(plan: &Plan) -> usize
    ensures { result ≡ all_words plan.now }
{
    place_index(plan, place_count(plan))
}
