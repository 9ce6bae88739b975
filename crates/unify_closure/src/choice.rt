//! Which of two nodes stands for both.

ghost use Rattle.std.specs.Prelude.{◌≡◌, ℕ, ◌++◌, ◌<◌, length, IfOk, OnOk};
ghost use Rattle.std.specs.List.{zip};
ghost use Rattle.unify_model.specs.Substituting.{same_variable, comes_before, same_sort};
ghost use Rattle.unify_closure.specs.Graph.{node_at, variable_of};
ghost use Rattle.unify_closure.specs.Closing.{chosen};
ghost use Rattle.unify_closure.specs.Turns.{IsTaken};

use crate::node::Node;
use clp_model::Sort;
use term_store::NoMemory;

fn same_sort(s: Sort, r: Sort) -> bool
    ensures { result ≡ same_sort s r }
{
    match (s, r) {
        (Sort::Any, Sort::Any) => true,
        (Sort::Num, Sort::Num) => true,
        _ => false,
    }
}

fn same(n: u32, s: Sort, m: u32, r: Sort) -> bool
    ensures { result ≡ same_variable (variable_of n s) (variable_of m r) }
{
    n == m && same_sort(s, r)
}

fn before(n: u32, s: Sort, m: u32, r: Sort) -> bool
    ensures { result ≡ comes_before (variable_of n s) (variable_of m r) }
{
    match (s, r) {
        (Sort::Num, Sort::Any) => true,
        (Sort::Any, Sort::Num) => false,
        _ => n < m,
    }
}

/// Puts the equations between the arguments last.
fn push_pairs(xs: &[usize], ys: &[usize], work: &mut Vec<(usize, usize)>) -> Result<(), NoMemory>
    requires { length xs.now ≡ length ys.now }
    ensures { OnOk result (work.new.items ≡ work.old.items ++ zip xs.now ys.now) }
{
    for (i, x) in xs.iter().enumerate() {
        work.push((*x, ys[i]))?;
    }
    Ok(())
}

/// Which of two places stands for both, and the equations between their arguments, which are put last.
pub(crate) fn choose(
    nodes: &[Node],
    x: usize,
    y: usize,
    work: &mut Vec<(usize, usize)>,
) -> Result<Option<usize>, NoMemory>
    requires x_within { x < length nodes.now }
    requires y_within { y < length nodes.now }
    ensures { IfOk result (λ z. IsTaken z work.old.items work.new.items (chosen x y (node_at nodes.now x) (node_at nodes.now y))) }
{
    match (&nodes[x], &nodes[y]) {
        (Node::Var(n, s), Node::Var(m, r)) => {
            if same(*n, *s, *m, *r) || before(*n, *s, *m, *r) {
                Ok(Some(x))
            } else {
                Ok(Some(y))
            }
        }
        (Node::Var(_, Sort::Any), Node::App(_, _)) => Ok(Some(y)),
        (Node::App(_, _), Node::Var(_, Sort::Any)) => Ok(Some(x)),
        (Node::App(f, xs), Node::App(g, ys)) => {
            if f.as_str() == g.as_str() && xs.len() == ys.len() {
                push_pairs(xs.as_slice(), ys.as_slice(), work)?;
                Ok(Some(x))
            } else {
                Ok(None)
            }
        }
        _ => Ok(None),
    }
}
