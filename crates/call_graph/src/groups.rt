//! The stack of a walk down the calls: names entered that are not done, in groups that reach each other.

ghost use Rattle.std.specs.Prelude.{ℕ, ◌≡◌, ◌⊎◌, ◌<◌, ◌≤◌, ◌∷◌, List, Contains, IfSome, IfNone, IsTrue, IsFalse, length, get_or, reverse};
ghost use Rattle.call_graph.specs.Closure.{CallsName};
ghost use Rattle.call_graph.specs.Groups.{Descends, IsLeft, IsMet, AreCutStarts, IsKnown, IsGrouped, IsFollowed};

use indexmap::IndexSet;
use loda_syntax::Instr;
use program_store::Library;

/// A name whose calls are being followed: its place on the stack, and the place in its text from which its calls are still
/// to be followed.
#[derive(Clone, Copy)]
pub struct Frame {
    pub place: usize,
    pub next: usize,
}

/// Joins the groups from the one of the place on.
fn join(starts: &mut Vec<usize>, place: usize)
    requires { Descends (reverse starts.old.items) }
    ensures { AreCutStarts (reverse starts.old.items) place (reverse starts.new.items) }
{
    while let Some(start) = starts.last() {
        if *start <= place {
            break;
        }
        starts.pop();
    }
}

/// Whether the last group starts at the place. Its start is taken off then.
pub fn pop_start(starts: &mut Vec<usize>, place: usize) -> bool
    ensures yes { IsTrue result → reverse starts.old.items ≡ place ∷ reverse starts.new.items }
    ensures not { IsFalse result → (starts.new.items ≡ starts.old.items) × ((rest : List ℕ) → reverse starts.old.items ≡ place ∷ rest → ⊥) }
{
    match starts.last() {
        Some(start) => {
            if *start != place {
                return false;
            }
            starts.pop();
            true
        }
        None => false,
    }
}

/// Whether the name is new. Where it is on the stack, the groups from its own on are joined.
fn is_new(done: &IndexSet<u32>, stack: &IndexSet<u32>, starts: &mut Vec<usize>, name: u32) -> bool
    requires { Descends (reverse starts.old.items) }
    ensures done { IsTrue result → Contains done.now.keys name → ⊥ }
    ensures stack { IsTrue result → Contains stack.now.keys name → ⊥ }
    ensures starts { IsTrue result → starts.new.items ≡ starts.old.items }
    ensures known { IsFalse result → IsKnown done.now.keys stack.now.keys (reverse starts.old.items) (reverse starts.new.items) name }
{
    if done.contains(&name) {
        return false;
    }
    match stack.get_index_of(&name) {
        Some(place) => {
            join(starts, place);
            false
        }
        None => true,
    }
}

/// Follows the calls of the frame's name, from its place in the text on, up to the first new name. Answers that name, and
/// the place behind its call; `None` where no call is left. Each call of a name on the stack joins the groups between.
pub fn follow<B: Library>(
    lib: &B,
    done: &IndexSet<u32>,
    stack: &IndexSet<u32>,
    starts: &mut Vec<usize>,
    frame: &Frame,
) -> Option<(usize, u32)>
    requires grouped { IsGrouped (B.programs lib.now) done.now.keys stack.now.keys (reverse starts.old.items) }
    requires within { frame.now.place < length stack.now.keys }
    requires last { (b : ℕ) → Contains (reverse starts.old.items) b → b ≤ frame.now.place }
    requires before { IsFollowed (B.programs lib.now) done.now.keys stack.now.keys (reverse starts.old.items) frame.now.place frame.now.next }
    ensures grouped { IsGrouped (B.programs lib.now) done.now.keys stack.now.keys (reverse starts.new.items) }
    ensures fewer { (b : ℕ) → Contains (reverse starts.new.items) b → Contains (reverse starts.old.items) b }
    ensures called { IfSome result (λ r. CallsName (B.programs lib.now) (get_or stack.now.keys frame.now.place 0) r.1) }
    ensures done { IfSome result (λ r. Contains done.now.keys r.1 → ⊥) }
    ensures stack { IfSome result (λ r. Contains stack.now.keys r.1 → ⊥) }
    ensures some { IfSome result (λ r. (n : ℕ) → CallsName (B.programs lib.now) (get_or stack.now.keys frame.now.place 0) n → IsMet done.now.keys stack.now.keys (reverse starts.new.items) frame.now.place n ⊎ ((r.1 ≡ n) ⊎ IsLeft (B.programs lib.now) (get_or stack.now.keys frame.now.place 0) r.0 n)) }
    ensures none { IfNone result ((n : ℕ) → CallsName (B.programs lib.now) (get_or stack.now.keys frame.now.place 0) n → IsMet done.now.keys stack.now.keys (reverse starts.new.items) frame.now.place n) }
{
    let name = stack.get_index(frame.place)?;
    let program = lib.program(*name)?;
    let list = program.instrs();
    for at in frame.next..list.len() {
        if let Instr::Call { target: _, name } = &list[at] {
            if is_new(done, stack, starts, *name) {
                return Some((at + 1, *name));
            }
        }
    }
    None
}

/// Whether the program of the name calls the name.
pub fn calls_itself<B: Library>(lib: &B, name: u32) -> bool
    ensures yes { IsTrue result → CallsName (B.programs lib.now) name name }
    ensures not { IsFalse result → CallsName (B.programs lib.now) name name → ⊥ }
{
    let Some(program) = lib.program(name) else {
        return false;
    };
    let list = program.instrs();
    for instr in list {
        if let Instr::Call {
            target: _,
            name: called,
        } = instr
        {
            if *called == name {
                return true;
            }
        }
    }
    false
}
