// The table of nodes: by place the first label there.
ghost use Rattle.std.specs.Prelude.{◌≡◌, ◌<◌, length, get_or};
ghost use Rattle.reader.specs.Cut.{Blank};
ghost use Rattle.nodes.specs.Nodes.{Readable, Tabled, place_of};

use format::Sections;

// The place of label k.
pub fn place_of(file: &[u8], c: Sections, k: usize) -> usize
    requires { Readable file.now c × (k < c.labels) }
    ensures { (result ≡ place_of file.now k) × (result < c.extent) }
{
    let at = c.targets + 8 * k + 4;
    format::word(file, at)
}

// Fills a blank table. Labels go from the last to the first, so that the first one at a place stays.
pub fn fill(file: &[u8], c: Sections, table: &mut [u16])
    requires readable { Readable file.now c }
    requires extent_in_bounds { (c.extent < length table.old) × Blank table.old }
    ensures { Tabled file.now table.new }
{
    for i in (0..c.labels).rev() {
        let p = place_of(file, c, i);
        table[p] = (i + 1) as u16;
    }
}

// The node at a place, counted from 1; 0 where there is none.
pub fn node_at(table: &[u16], q: usize) -> usize
    requires { q < length table.now }
    ensures { result ≡ get_or table.now q 0 }
{
    usize::from(table[q])
}
