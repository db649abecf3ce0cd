// What load says: the wrapper, then the sides in their order, each wholly.
ghost use Rattle.std.specs.Prelude.{◌≡◌, map, ℕ, ◌+◌, ◌-◌, ◌<◌};
ghost use Rattle.model.specs.Wrapper.{described};
ghost use Rattle.model.specs.Load.{side_fault, lack_fault, load};
ghost use Rattle.tables.specs.Nodes.{table};
ghost use Rattle.tables.specs.Checks.{fault_of};
ghost use Rattle.wrappers.specs.Compositions.{composition};
ghost use Rattle.loading.specs.Loading.{fault_at, refusal_of, refusal_in};

use crate::LoadRefusal;
use scopes::unfolded::unfolded_at;
use sides::{Side, Sides};
use tables::checks::{Cause, Fault, check};
use wrappers::{has_side, is_wrapper};

// The fault of a side that the wrapper has: 1 to 6, then 7 with node 0.
fn side_verdict(nodes: &[u32], pool: &[u32]) -> Result<(), Fault>
    ensures { (n : ℕ) → fault_of result ≡ side_fault n (table nodes.now pool.now) }
{
    check(nodes, pool)?;
    let u = unfolded_at(nodes, pool, 0);
    if Side::contents_within(u.particles, u.boxes + 1, u.names) {
        Ok(())
    } else {
        Err(Fault {
            cause: Cause::Limit,
            node: 0,
        })
    }
}

// The fault of a side that it lacks: 1 where a slice is not empty.
fn lack_verdict(nodes: &[u32], pool: &[u32]) -> Result<(), Fault>
    ensures { fault_of result ≡ lack_fault (table nodes.now pool.now) }
{
    if nodes.is_empty() && pool.is_empty() {
        Ok(())
    } else {
        Err(Fault {
            cause: Cause::Size,
            node: 0,
        })
    }
}

// The fault of side n.
fn fault_at(wrapper: u32, n: u32, nodes: &[u32], pool: &[u32]) -> Result<(), Fault>
    ensures { fault_of result ≡ fault_at (described wrapper) n (table nodes.now pool.now) }
{
    if has_side(wrapper, n) {
        side_verdict(nodes, pool)
    } else {
        lack_verdict(nodes, pool)
    }
}

// The number of the side at place k of what is lent.
pub fn number_of(k: usize) -> u32
    requires { k < 65536 }
    ensures { result ≡ k + 1 }
{
    k as u32 + 1
}

// The place of side n.
pub fn place_of(n: u32) -> usize
    requires { 0 < n }
    ensures { result ≡ n - 1 }
{
    (n - 1) as usize
}

// What load says of the wrapper and the tables.
pub fn load_verdict(
    wrapper: u32,
    nodes: [&[u32]; Sides::COUNT],
    pools: [&[u32]; Sides::COUNT],
) -> Result<(), LoadRefusal>
    ensures { refusal_of result ≡ refusal_in (load (composition wrapper (map (λ x. x.now) nodes.entry) (map (λ x. x.now) pools.entry))) }
{
    if !is_wrapper(wrapper) {
        return Err(LoadRefusal {
            cause: Cause::Size,
            side: 0,
            node: 0,
        });
    }
    for k in 0..Sides::COUNT {
        let n = number_of(k);
        if let Err(f) = fault_at(wrapper, n, nodes[k], pools[k]) {
            return Err(LoadRefusal {
                cause: f.cause,
                side: n,
                node: f.node,
            });
        }
    }
    Ok(())
}
