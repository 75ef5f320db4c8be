// Need and frames of all bodies, from a table of their own heights and calls.
#![tactic(auto)]

ghost use Rattle.std.specs.Prelude.{◌≡◌, suc, ◌+◌, ◌*◌, ◌<◌, ◌≤◌, length};
ghost use Rattle.settle.specs.Graph.{offset_at, NextCall, Joined, Callees, Low, Sizes, Settled, Open, Visited, Reached, mark_of, unseen, Ended};

#[derive(Clone, Copy)]
pub struct Pair {
    pub need: u32,
    pub frames: u32,
}

// The first function from k on that row b calls, or n.
fn next_call(offsets: &[u16], b: usize, k: usize, n: usize) -> usize
    requires { (b ≤ n) × (k ≤ n) × (n ≤ 128) × (128 * suc n ≤ length offsets.now) }
    ensures { NextCall offsets.now b k n result }
{
    let row = 128 * b;
    for i in k..n {
        if offsets[row + i] > 0 {
            return i;
        }
    }
    n
}

// Row b, all of whose n callees have their need and frames.
fn join(b: usize, n: usize, own: &[u32], offsets: &[u16], need: &[u32], frames: &[u32]) -> Pair
    requires b_le_n { (b ≤ n) × (n ≤ 128) × (length own.now ≡ 129) × (128 * suc n ≤ length offsets.now) × (length need.now ≡ 129) × (length frames.now ≡ 129) }
    requires callees { Callees offsets.now need.now frames.now b n }
    ensures { Joined own.now offsets.now need.now frames.now b n result.need result.frames }
{
    let mut x = own[b];
    let mut y: u32 = 1;
    let mut k = next_call(offsets, b, 0, n);
    while k < n {
        let a = u32::from(offsets[128 * b + k]);
        x = x.max(a - 1 + need[k + 1]);
        y = y.max(frames[k + 1] + 1);
        k = next_call(offsets, b, k + 1, n);
    }
    Pair { need: x, frames: y }
}

// Row b is open and calls function k, which is visited first. Whether row b may still settle. At most `left` rows are unseen.
#[cycle(reach_visit)]
fn reach(
    b: usize,
    k: usize,
    n: usize,
    left: usize,
    own: &[u32],
    offsets: &[u16],
    marks: &mut [u8],
    need: &mut [u32],
    frames: &mut [u32],
) -> bool
    requires sizes { Sizes n own.now offsets.now marks.old need.old frames.old × Settled n own.now offsets.now marks.old need.old frames.old × Low n own.now offsets.now }
    requires b_le_n { (b ≤ n) × (k < n) × (0 < offset_at offsets.now b k) × (unseen marks.old ≤ left) × Open n own.now offsets.now marks.old b }
    ensures { Reached n own.now offsets.now b k marks.old marks.new need.new frames.new result }
{
    if marks[k + 1] > 0 {
        return marks[k + 1] == 2;
    }
    visit(k + 1, n, left, own, offsets, marks, need, frames);
    marks[k + 1] == 2
}

// Row b, unseen so far, and before it the rows that it calls.
#[cycle(reach_visit)]
fn visit(
    b: usize,
    n: usize,
    left: usize,
    own: &[u32],
    offsets: &[u16],
    marks: &mut [u8],
    need: &mut [u32],
    frames: &mut [u32],
)
    requires sizes { Sizes n own.now offsets.now marks.old need.old frames.old × Settled n own.now offsets.now marks.old need.old frames.old × Low n own.now offsets.now }
    requires b_le_n { (b ≤ n) × (mark_of marks.old b ≡ 0) × (unseen marks.old ≤ left) × Open n own.now offsets.now marks.old b }
    ensures { Visited n own.now offsets.now b marks.old marks.new need.new frames.new }
{
    marks[b] = 1;
    let mut fine = true;
    let mut k = next_call(offsets, b, 0, n);
    while k < n {
        let ok = reach(b, k, n, left - 1, own, offsets, marks, need, frames);
        fine = fine & ok;
        k = next_call(offsets, b, k + 1, n);
    }
    if !fine {
        marks[b] = 3;
        return;
    }
    let p = join(b, n, own, offsets, need, frames);
    need[b] = p.need;
    frames[b] = p.frames;
    marks[b] = 2;
}

// Row b, if it is unseen; the rows before it have ended.
fn begin(
    b: usize,
    n: usize,
    own: &[u32],
    offsets: &[u16],
    marks: &mut [u8],
    need: &mut [u32],
    frames: &mut [u32],
)
    requires { Ended n own.now offsets.now b marks.old need.old frames.old × Low n own.now offsets.now × (b ≤ n) }
    ensures { Ended n own.now offsets.now (b + 1) marks.new need.new frames.new }
{
    if marks[b] > 0 {
        return;
    }
    visit(b, n, 129, own, offsets, marks, need, frames);
}

// All rows, none of which was seen: each is settled, with its need and frames, or loops.
pub fn settle(
    n: usize,
    own: &[u32],
    offsets: &[u16],
    marks: &mut [u8],
    need: &mut [u32],
    frames: &mut [u32],
)
    requires { Ended n own.now offsets.now 0 marks.old need.old frames.old × Low n own.now offsets.now }
    ensures { Ended n own.now offsets.now (n + 1) marks.new need.new frames.new }
{
    for b in 0..n + 1 {
        begin(b, n, own, offsets, marks, need, frames);
    }
}
