// A state as one doubly linked chain in a lent array, and the location of each block's content. No content is copied.
//
// Nodes: block b is node b, list l is node 64 + l; START stands before all nodes and END behind all. The chain holds each list taken, in the order
// of their taking, followed by its blocks in order; then FREE; then the free blocks and lists in the order of their freeing. So every node is always in
// the chain: a put and a deletion move one, a removal needs no search, and no end is a special case. A node's owner is the list that it is of, 0 for a
// free one.
//
// The array holds node by node four bytes, next, prev, owner and the low byte of its content's location, and behind all nodes the high bytes of
// those. Every byte is the number of a node, so no function asks anything of its numbers. What is promised of a state asks that they are in range.
ghost use Rattle.std.specs.Prelude.{◌≡◌, ◌+◌, ◌*◌, ◌≤◌, length};
ghost use Rattle.lists.specs.Change.{take_list, put_after, write, del_block, del_list};
ghost use Rattle.lists.specs.promises.Tables.{tables_in, next_of, prev_of, owner_of, list_node, with_next, with_prev, with_owner, with_location, link_nodes, place_node, insert_node, insert_before, cut_node, free_node, IsFirst, Drops, Clears, block_or0, list_within, cleared, Did, DidSome, of_kind, SaysTaken, SaysPlaced, SaysOn, SaysLocation, SaysBlockAfter, SaysListAfter, unless, SaysFreeAfter, SaysLastFree};

use crate::first::FIRST;
use crate::kind;
use crate::limits::BLOCKS;

const START: u8 = 0;

const FREE: u8 = 254;

const END: u8 = 255;

// The lists' nodes stand above the blocks', the last of which is BLOCKS.
const LIST_NODES: u8 = 64;

// The location of a block that was not written since it was put.
pub const UNWRITTEN: u16 = 0;

// Where a node's bytes stand: from NODE * x on, and the high byte of its location at HIGH + x.
const NODE: usize = 4;

const PREV: usize = 1;

const OWNER: usize = 2;

const LOCATION: usize = 3;

const HIGH: usize = 1024;

// Nothing is done, and the compiler drops the copy: how long an array is the proof learns of a value, not of a reference.
fn sized(nodes: [u8; 1280])
    ensures { length nodes ≡ 1280 }
{}

fn next_of(nodes: &[u8; 1280], x: u8) -> u8
    ensures { result ≡ next_of (tables_in nodes.now) x }
{
    nodes[NODE * x as usize]
}

fn prev_of(nodes: &[u8; 1280], x: u8) -> u8
    ensures { result ≡ prev_of (tables_in nodes.now) x }
{
    nodes[NODE * x as usize + PREV]
}

fn owner_of(nodes: &[u8; 1280], x: u8) -> u8
    ensures { result ≡ owner_of (tables_in nodes.now) x }
{
    nodes[NODE * x as usize + OWNER]
}

// A number of its low and its high byte.
pub fn of_bytes(low: u8, high: u8) -> u16
    ensures { result ≡ low + 256 * high }
{
    low as u16 + 256 * high as u16
}

fn set_next(nodes: &mut [u8; 1280], x: u8, y: u8)
    ensures { tables_in nodes.new ≡ with_next x y (tables_in nodes.old) }
{
    sized(*nodes);
    nodes[NODE * x as usize] = y;
}

fn set_prev(nodes: &mut [u8; 1280], x: u8, y: u8)
    ensures { tables_in nodes.new ≡ with_prev x y (tables_in nodes.old) }
{
    sized(*nodes);
    nodes[NODE * x as usize + PREV] = y;
}

fn set_owner(nodes: &mut [u8; 1280], x: u8, list: u8)
    ensures { tables_in nodes.new ≡ with_owner x list (tables_in nodes.old) }
{
    sized(*nodes);
    nodes[NODE * x as usize + OWNER] = list;
}

fn set_location(nodes: &mut [u8; 1280], x: u8, location: u16)
    ensures { tables_in nodes.new ≡ with_location x location (tables_in nodes.old) }
{
    sized(*nodes);
    nodes[NODE * x as usize + LOCATION] = (location % 256) as u8;
    nodes[HIGH + x as usize] = (location / 256) as u8;
}

// The remainder keeps it a node whatever the number is.
fn list_node(list: u8) -> u8
    ensures { result ≡ list_node list }
{
    BLOCKS + list % LIST_NODES
}

// Node y follows node x.
fn link(nodes: &mut [u8; 1280], x: u8, y: u8)
    ensures { tables_in nodes.new ≡ link_nodes x y (tables_in nodes.old) }
{
    set_next(nodes, x, y);
    set_prev(nodes, y, x);
}

// The tables of the empty state, in one copy. What they held does not matter.
pub fn clear(nodes: &mut [u8; 1280])
    ensures { tables_in nodes.new ≡ cleared }
{
    *nodes = FIRST;
}

// Node n leaves the chain: the one before it leads to the one behind it.
fn cut(nodes: &mut [u8; 1280], n: u8)
    ensures { tables_in nodes.new ≡ cut_node n (tables_in nodes.old) }
{
    let x = prev_of(nodes, n);
    let y = next_of(nodes, n);
    link(nodes, x, y);
}

// Node n stands between nodes x and y, and is of a list, or free.
fn place(nodes: &mut [u8; 1280], x: u8, n: u8, y: u8, list: u8)
    ensures { tables_in nodes.new ≡ place_node x n y list (tables_in nodes.old) }
{
    link(nodes, x, n);
    link(nodes, n, y);
    set_owner(nodes, n, list);
}

// It goes in behind node x, or before node y.
fn insert(nodes: &mut [u8; 1280], x: u8, n: u8, list: u8)
    ensures { tables_in nodes.new ≡ insert_node x n list (tables_in nodes.old) }
{
    let behind = next_of(nodes, x);
    place(nodes, x, n, behind, list);
}

fn insert_before(nodes: &mut [u8; 1280], y: u8, n: u8, list: u8)
    ensures { tables_in nodes.new ≡ insert_before y n list (tables_in nodes.old) }
{
    let before = prev_of(nodes, y);
    place(nodes, before, n, y, list);
}

// Node x goes behind the last free one.
fn free(nodes: &mut [u8; 1280], x: u8)
    ensures { tables_in nodes.new ≡ free_node x (tables_in nodes.old) }
{
    cut(nodes, x);
    insert_before(nodes, END, x, 0);
}

// The list's node leaves the free ones and goes behind the last list.
fn take(nodes: &mut [u8; 1280], list: u8) -> bool
    ensures { Did (take_list list) (tables_in nodes.old) result (tables_in nodes.new) }
{
    let n = list_node(list);
    if owner_of(nodes, n) != 0 {
        return false;
    }
    cut(nodes, n);
    insert_before(nodes, FREE, n, list);
    true
}

// The block leaves the free ones and goes behind node x, which is to be a node of the list: its own, or a block's.
fn put(nodes: &mut [u8; 1280], block: u8, list: u8, x: u8) -> bool
    ensures { Did (put_after block list x) (tables_in nodes.old) result (tables_in nodes.new) }
{
    if owner_of(nodes, block) != 0 {
        return false;
    }
    if owner_of(nodes, x) != list {
        return false;
    }
    cut(nodes, block);
    insert(nodes, x, block, list);
    set_location(nodes, block, UNWRITTEN);
    true
}

fn write_block(nodes: &mut [u8; 1280], block: u8, location: u16) -> bool
    ensures { Did (write block location) (tables_in nodes.old) result (tables_in nodes.new) }
{
    if owner_of(nodes, block) == 0 {
        return false;
    }
    set_location(nodes, block, location);
    true
}

fn delete_block(nodes: &mut [u8; 1280], block: u8) -> bool
    ensures { Did (del_block block) (tables_in nodes.old) result (tables_in nodes.new) }
{
    if owner_of(nodes, block) == 0 {
        return false;
    }
    free(nodes, block);
    true
}

// One step of a list deletion: the list's first block goes behind the last free node. The node before it is the list's own, n, so none is searched for.
// The node that follows n then is returned.
fn drop_first(nodes: &mut [u8; 1280], n: u8, first: u8, last: u8) -> u8
    requires { IsFirst n first (tables_in nodes.old) }
    ensures { Drops n last (tables_in nodes.old) result (tables_in nodes.new) }
{
    let second = next_of(nodes, first);
    link(nodes, last, first);
    link(nodes, first, END);
    link(nodes, n, second);
    set_owner(nodes, first, 0);
    second
}

// The blocks of the list whose node is n go, a step for each. The block of a step is the last free node in the next one: to read that anew would wait for
// the store before it.
fn drop_all(nodes: &mut [u8; 1280], n: u8, list: u8)
    requires { (1 ≤ list) × (owner_of (tables_in nodes.old) n ≡ list) }
    ensures { Clears n list (tables_in nodes.old) (tables_in nodes.new) }
{
    let mut first = next_of(nodes, n);
    let mut last = prev_of(nodes, END);
    let mut of = owner_of(nodes, first);
    while of == list {
        let second = drop_first(nodes, n, first, last);
        last = first;
        first = second;
        of = owner_of(nodes, first);
    }
}

// The list's blocks go by the owner of its node, which is not 0, so that there is an end of them whatever the number is. Then its node goes.
fn delete_list(nodes: &mut [u8; 1280], list: u8) -> bool
    ensures { Did (del_list list) (tables_in nodes.old) result (tables_in nodes.new) }
{
    let n = list_node(list);
    let l = owner_of(nodes, n);
    if l == 0 {
        return false;
    }
    drop_all(nodes, n, l);
    free(nodes, n);
    true
}

// A change is made, if it applies; if it does not, or is of no kind, the tables are as they were and the answer is false. Each kind takes what it needs
// of block, list, predecessor and location. One function on numbers, since the walk, a commit, the queue and a journal all act by it.
pub fn act(
    nodes: &mut [u8; 1280],
    kind: u8,
    block: u8,
    list: u8,
    predecessor: u8,
    location: u16,
) -> bool
    ensures { DidSome (of_kind kind block list predecessor location) (tables_in nodes.old) result (tables_in nodes.new) }
{
    match kind {
        kind::TAKE => take(nodes, list),
        kind::PUT_FIRST => put(nodes, block, list, list_node(list)),
        kind::PUT_AFTER => put(nodes, block, list, predecessor),
        kind::WRITE => write_block(nodes, block, location),
        kind::DELETE_BLOCK => delete_block(nodes, block),
        kind::DELETE_LIST => delete_list(nodes, list),
        _ => false,
    }
}

// Is the list taken?
pub fn is_taken(nodes: &[u8; 1280], list: u8) -> bool
    ensures { SaysTaken (tables_in nodes.now) list result }
{
    owner_of(nodes, list_node(list)) != 0
}

// Is the block on some list?
pub fn is_placed(nodes: &[u8; 1280], block: u8) -> bool
    ensures { SaysPlaced (tables_in nodes.now) block result }
{
    owner_of(nodes, block) != 0
}

// Is the block on this list?
pub fn is_on(nodes: &[u8; 1280], list: u8, block: u8) -> bool
    ensures { SaysOn (tables_in nodes.now) list block result }
{
    owner_of(nodes, block) == list
}

// The location of the content of a block that is on some list; 0 if it was not written.
pub fn location_of(nodes: &[u8; 1280], block: u8) -> u16
    ensures { SaysLocation (tables_in nodes.now) block result }
{
    let low = nodes[NODE * block as usize + LOCATION];
    let high = nodes[HIGH + block as usize];
    of_bytes(low, high)
}

// The block that follows node x, 0 if none does.
fn block_behind(nodes: &[u8; 1280], x: u8) -> u8
    ensures { result ≡ block_or0 (next_of (tables_in nodes.now) x) }
{
    let y = next_of(nodes, x);
    if y <= BLOCKS { y } else { 0 }
}

// The block after another on a list that is taken: 0 stands for the first, and is returned at the end.
pub fn block_after(nodes: &[u8; 1280], list: u8, predecessor: u8) -> u8
    ensures { SaysBlockAfter (tables_in nodes.now) list predecessor result }
{
    if predecessor == 0 {
        block_behind(nodes, list_node(list))
    } else {
        block_behind(nodes, predecessor)
    }
}

// The list that follows node x, 0 if none does. Blocks are passed over, and FREE stands behind the last list.
fn list_behind(nodes: &[u8; 1280], x: u8) -> u8
    ensures { result ≡ list_within 256 (tables_in nodes.now).next x }
{
    let mut n = x;
    let mut i = 0usize;
    while i < 256 {
        n = next_of(nodes, n);
        if n == FREE {
            return 0;
        }
        if BLOCKS < n {
            return n - BLOCKS;
        }
        i += 1;
    }
    0
}

// The list taken next after another: 0 stands for the first, and is returned at the end.
pub fn list_after(nodes: &[u8; 1280], list: u8) -> u8
    ensures { SaysListAfter (tables_in nodes.now) list result }
{
    if list == 0 {
        list_behind(nodes, START)
    } else {
        list_behind(nodes, list_node(list))
    }
}

// The free number that follows node x, 0 if none does.
fn free_behind(nodes: &[u8; 1280], x: u8) -> u8
    ensures { result ≡ unless 255 (next_of (tables_in nodes.now) x) }
{
    let y = next_of(nodes, x);
    if y == END { 0 } else { y }
}

// The free number after another in the order of their freeing: 0 stands for before the first, and is returned at the end.
pub fn free_after(nodes: &[u8; 1280], number: u8) -> u8
    ensures { SaysFreeAfter (tables_in nodes.now) number result }
{
    if number == 0 {
        free_behind(nodes, FREE)
    } else {
        free_behind(nodes, number)
    }
}

// The last of the free numbers, 0 if there is none.
pub fn last_free(nodes: &[u8; 1280]) -> u8
    ensures { SaysLastFree (tables_in nodes.now) result }
{
    let x = prev_of(nodes, END);
    if x == FREE { 0 } else { x }
}
