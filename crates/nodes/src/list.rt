// The nodes that something has flowed to, in the order in which it did, and how many of them were walked from.
// Word k of the marks is 1 where node k is one of them. They are listed from word 256 on, counted in word 512, and those that were
// walked from in word 513.
ghost use Rattle.std.specs.Prelude.{◌≡◌, ◌<◌, ◌≤◌};
ghost use Rattle.nodes.specs.Nodes.{Whole, count_of, done_of, appended, advanced, waiting_in};

pub(crate) fn append(marks: &mut [u16], k: usize)
    requires { Whole marks.old × (k < 256) × (count_of marks.old < 256) }
    ensures { marks.new ≡ appended marks.old k }
{
    let n = usize::from(marks[512]);
    marks[k] = 1;
    marks[256 + n] = k as u16;
    marks[512] = (n + 1) as u16;
}

// The first node that waits for a walk, where one does.
pub fn first(marks: &[u16]) -> Option<usize>
    requires { Whole marks.now × (done_of marks.now ≤ count_of marks.now) × (count_of marks.now ≤ 256) }
    ensures { result ≡ waiting_in marks.now }
{
    let i = usize::from(marks[513]);
    let n = usize::from(marks[512]);
    if i == n {
        return None;
    }
    Some(usize::from(marks[256 + i]))
}

// That node was walked from.
pub fn advance(marks: &mut [u16])
    requires { Whole marks.old × (done_of marks.old < 256) }
    ensures { marks.new ≡ advanced marks.old }
{
    let i = usize::from(marks[513]);
    marks[513] = (i + 1) as u16;
}
