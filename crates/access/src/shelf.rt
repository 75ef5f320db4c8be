// The shelf of a heap in four words: count, next, low, top.
ghost use Rattle.std.specs.Prelude.{◌≡◌, length};
ghost use Rattle.access.specs.Access.{shelf_of};

use heap::Shelf;

pub fn shelf(g: &[u64]) -> Shelf
    requires { length g.now ≡ 4 }
    ensures { result ≡ shelf_of g.now }
{
    Shelf {
        count: g[0] as usize,
        next: g[1],
        low: g[2] as usize,
        top: g[3] as usize,
    }
}

pub fn keep(g: &mut [u64], k: Shelf)
    requires { length g.old ≡ 4 }
    ensures { (shelf_of g.new ≡ k) × (length g.new ≡ 4) }
{
    g[0] = k.count as u64;
    g[1] = k.next;
    g[2] = k.low as u64;
    g[3] = k.top as u64;
}
