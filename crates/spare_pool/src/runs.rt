//! Aligned runs among marked pages.

ghost use Rattle.std.specs.Prelude.{◌≡◌, ℕ, ◌+◌, ◌*◌, ◌^◌, ◌<◌, ◌≤◌, ◌↔◌, ◌++◌, length, take, drop, replicate, IsTrue, IfSome, IfNone};
ghost use Rattle.spare_pool.specs.Marks.{AllMarked, IsMarkedRun};

/// How many pages a run of that logarithm has.
pub fn size_of_run(log: u8) -> usize
    requires { log ≤ 9 }
    ensures { result ≡ 2 ^ log }
{
    1 << log
}

/// Whether all the marks from `first` on, `size` of them, are set.
fn is_marked(marks: &[bool], first: usize, size: usize) -> bool
    requires { first + size ≤ length marks.now }
    ensures { IsTrue result ↔ AllMarked marks.now first size }
{
    for i in first..first + size {
        if !marks[i] {
            return false;
        }
    }
    true
}

/// The lowest aligned run of set marks.
pub fn lowest_marked(marks: &[bool], size: usize) -> Option<usize>
    requires { 0 < size }
    ensures found { IfSome result (λ first. IsMarkedRun marks.now size first) }
    ensures lowest { IfSome result (λ first. (other : ℕ) → IsMarkedRun marks.now size other → first ≤ other) }
    ensures none { IfNone result ((first : ℕ) → IsMarkedRun marks.now size first → ⊥) }
{
    for block in 0..marks.len() / size {
        if is_marked(marks, block * size, size) {
            return Some(block * size);
        }
    }
    None
}

/// Sets the marks of a run, or ends them.
pub fn mark_run(marks: &mut [bool], first: usize, size: usize, mark: bool)
    requires { first + size ≤ length marks.old }
    ensures { marks.new ≡ take first marks.old ++ replicate size mark ++ drop (first + size) marks.old }
{
    marks[first..first + size].fill(mark);
}
