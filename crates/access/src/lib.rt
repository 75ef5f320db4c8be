// Instructions over the lent heap, where the machine has none at hand. The shelf is lent in four words, as frames are.
#![tactic(auto)]

ghost use Rattle.std.specs.Prelude.{◌≡◌, false, ◌<◌};
ghost use Rattle.rules.specs.ModuleFile.{structures_in, read, refusal};
ghost use Rattle.rules.specs.Stack.{slots_of};
ghost use Rattle.rules.specs.declared.Instruction.{Instruction};
ghost use Rattle.soundness.specs.Framed.{heapless};
ghost use Rattle.soundness.specs.Kinds.{Kinded};
ghost use Rattle.format.specs.Layout.{Packed};
ghost use Rattle.keys.specs.Keys.{Says};
ghost use Rattle.state.specs.State.{ReadyOn};
ghost use Rattle.access.specs.Access.{HeapReady, AccessIs};

use format::Sections;
use rules::Exception;
use state::{Progress, Registers};

pub mod blocks;
pub mod pointers;
pub mod shelf;
mod targets;

// This is never raised here: there stands an instruction, one that may need a heap.
const NEVER: Exception = Exception::FunctionNoRetInstruction;

// The instruction at the place, which may need a heap, done over it. Since one stands there, its body goes on at least to the next place;
// with that for the end, decoding tests nothing.
pub fn step(
    file: &[u8],
    c: Sections,
    code: &[u8],
    cap: usize,
    size: usize,
    r: Registers,
    g: &mut [u64],
    p: &mut [u8],
    t: &mut [u8],
    cells: &mut [u8],
    table: &mut [u8],
) -> Progress
    requires packed { Packed file.now c × (refusal file.now ≡ 0) }
    requires place_lt_stop { (r.place < r.stop) × ((i : Instruction) × Says code.now r.place i × (heapless i ≡ false)) }
    requires ready_on { ReadyOn cap r p.old t.old × Kinded (slots_of p.old t.old r.height) }
    requires heap_ready { HeapReady size (structures_in file.now) g.old cells.old table.old }
    ensures { (i : Instruction) → Says code.now r.place i → AccessIs (read file.now) i cap size r result (structures_in file.now) p.old t.old g.old cells.old table.old p.new t.new g.new cells.new table.new }
{
    let at = c.code + c.extent;
    let d = &file[at..];
    let Some(key) = keys::decode(code, r.place, r.place + 1) else {
        return Progress::Stops(NEVER);
    };
    // A match, and no table of closures: the compiler makes one jump of it, and each instruction is its own code.
    match key {
        0x06 => blocks::flea(d, code, cap, size, r, g, p, t, cells, table),
        0x07 => pointers::tload(d, cap, size, r, g, p, t, cells, table),
        0x08 => pointers::tstore(d, cap, size, r, g, p, t, cells, table),
        0x14 => pointers::bump::<true>(d, cap, size, r, g, p, t, cells, table),
        0x15 => pointers::bump::<false>(d, cap, size, r, g, p, t, cells, table),
        0x30 => blocks::null(false, cap, r, p, t),
        0x31 | 0x34 => blocks::new(key == 0x34, d, code, cap, size, r, g, p, t, cells, table),
        0x32 => blocks::delete(d, cap, size, r, g, p, t, cells, table),
        0x33 => blocks::null(true, cap, r, p, t),
        _ => Progress::Stops(NEVER),
    }
}
