// The table lowered slot by slot until nothing waits: each entry loses each bit at most once.
ghost use Rattle.std.specs.Prelude.{◌≡◌, ℕ, ◌%◌, ◌<◌, ◌≤◌, length, get_or};
ghost use Rattle.shape.specs.Code.{slots};
ghost use Rattle.paths.specs.Readable.{Told};
ghost use Rattle.paths.specs.Work.{Table, Kept, Work, left, Relaxed, beyond, leaving, Settled, Solved};

use crate::{Ends, node};
use worklist::Worklist;

// Lowers the mask at a slot, if there is one, to what is in out too. Where it changed, the slot waits.
fn relax(t: &mut [u16], work: &mut Worklist, slot: Option<usize>, out: u16)
    ensures { Relaxed t.old work.old out slot t.new work.new }
{
    let Some(v) = slot else {
        return;
    };
    if v < t.len() {
        let x = t[v];
        let old = x % 4096;
        let new = old & out;
        if new != old {
            t[v] = new + 4096;
            if x < 4096 {
                work.mark(v);
            }
        }
    }
}

// Lowers what comes after slot v, which waits no more.
fn visit(code: &[u8], t: &mut [u16], work: &mut Worklist, v: usize)
    requires table { Table code.now (slots code.now) t.old }
    requires kept { Kept v t.old work.old }
    requires v_in_bounds { (v < length t.old) × (4096 ≤ get_or t.old v 0) }
    ensures work { Work code.now t.new work.new }
    ensures result_bound { left t.new work.new < left t.old work.old }
{
    let m = t[v] - 4096;
    t[v] = m;
    let x = node::node_at(code, v);
    let out = m & x.keep | x.made;
    relax(t, work, x.on, out);
    relax(t, work, x.to, out);
}

// One step: a stale bit of the set is taken away, or a slot that waits is visited.
fn turn(code: &[u8], t: &mut [u16], work: &mut Worklist)
    requires work { Work code.now t.old work.old }
    requires top_nonzero { 0 < work.old.top }
    ensures work_2 { Work code.now t.new work.new }
    ensures result_bound { left t.new work.new < left t.old work.old }
{
    if let Some(v) = work.take() {
        if v < t.len() && t[v] >= 4096 {
            visit(code, t, work, v);
        }
    }
}

fn run(code: &[u8], t: &mut [u16], work: &mut Worklist)
    requires { Work code.now t.old work.old }
    ensures { Settled code.now t.new }
{
    // no `for`: it ends where no slot waits
    while work.top != 0 {
        turn(code, t, work);
    }
}

#[tactic(auto, unfolding(crate::specs::Work::beyond))]
fn past(n: usize, slot: Option<usize>) -> bool
    ensures { result ≡ beyond n slot }
{
    match slot {
        None => false,
        Some(v) => n <= v,
    }
}

#[tactic(auto, unfolding(crate::specs::Work::leaving))]
fn leaves(code: &[u8], t: &[u16], v: usize) -> bool
    requires { (v < length t.now) × (v < 131072) }
    ensures { result ≡ leaving code.now t.now v }
{
    if t[v] < 2048 {
        let x = node::node_at(code, v);
        return past(t.len(), x.on) || past(t.len(), x.to);
    }
    false
}

fn ends(code: &[u8], t: &[u16]) -> Ends
    requires { Settled code.now t.now }
    ensures { Told code.now result }
{
    for v in 0..t.len() {
        if leaves(code, t, v) {
            return Ends::Past;
        }
    }
    Ends::Inside
}

// Leaves the bits of the registers.
fn cut(t: &mut [u16])
    ensures { (k : ℕ) → get_or t.new k 0 ≡ get_or t.old k 0 % 2048 }
{
    for x in t.iter_mut() {
        *x %= 2048;
    }
}

pub(crate) fn solve(code: &[u8], t: &mut [u16]) -> Ends
    requires t_len { length t.old ≡ slots code.now }
    requires t_nonzero { (0 < length t.old) × (length t.old ≤ 131072) }
    ensures { Solved code.now t.new result }
{
    t.fill(4095);
    t[0] = 5122;
    let mut work = Worklist::new();
    work.mark(0);
    run(code, t, &mut work);
    let e = ends(code, t);
    cut(t);
    e
}
