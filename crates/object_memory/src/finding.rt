//! The places that a pointer points to.

ghost use Rattle.std.specs.Prelude.{◌≡◌, ◌<◌, ◌⊎◌, ℕ, true, List, [], ◌∷◌, ◌++◌, All, IfOk, OnOk, length};
ghost use Rattle.word_dag.specs.Growth.{Within, Extends};
ghost use Rattle.word_dag.specs.Meaning.{value};
ghost use Rattle.value_nodes.specs.Values.{IsWord, IsTest};
ghost use Rattle.object_memory.specs.Spots.{Rising};
ghost use Rattle.object_memory.specs.Places.{PlaceIn, spots, is_under};
ghost use Rattle.object_memory.specs.Hits.{HitIn, truly, IsFound};

use crate::places::{Hit, Place};
use rewritten_nodes::truth;
use std::alloc::{AllocError, Global};
use value_nodes::{both, equal, object_of, offset_of};
use word_dag::{Dag, Id};

// Whether a place is born under this number.
fn place_test(dag: &mut Dag, place: &Place, object: Id) -> Result<Id, AllocError>
    requires place { PlaceIn dag.old place.now }
    requires object { IsWord dag.old object 32 }
    ensures extends { Extends dag.old dag.new }
    ensures made { IfOk result (λ i. IsTest dag.new i (λ v. is_under v dag.old place.now (value v dag.old object))) }
{
    let same = equal(dag, object, place.number, 32)?;
    let id = both(dag, place.born, same)?;
    Ok(id)
}

/// Whether it is seen that a truth value is true.
pub(crate) fn is_always(dag: &Dag, test: Id) -> bool
    requires { Within dag.now test }
    ensures { result ≡ true → (v : ℕ → ℕ) → value v dag.now test ≡ 1 }
{
    match truth(dag, test) {
        Some(sure) => sure,
        None => false,
    }
}

/// Whether it is seen that a truth value is false.
pub(crate) fn is_never(dag: &Dag, test: Id) -> bool
    requires { Within dag.now test }
    ensures { result ≡ true → (v : ℕ → ℕ) → value v dag.now test ≡ 0 }
{
    match truth(dag, test) {
        Some(sure) => !sure,
        None => false,
    }
}

// A hit is added, where it isn't seen that its test is false.
fn keep(dag: &Dag, hits: &mut Vec<Hit>, hit: Hit) -> Result<(), AllocError>
    requires { Within dag.now hit.test }
    ensures { OnOk result ((hits.new.items ≡ hits.old.items ++ hit ∷ []) ⊎ ((hits.new.items ≡ hits.old.items) × ((v : ℕ → ℕ) → value v dag.now hit.test ≡ 0))) }
{
    if is_never(dag, hit.test) {
        return Ok(());
    }
    hits.push(hit)?;
    Ok(())
}

// A hit alone.
fn alone(alloc: Global, hit: Hit) -> Result<Vec<Hit>, AllocError>
    ensures { IfOk result (λ hits. hits.items ≡ hit ∷ []) }
{
    let mut hits = Vec::with_capacity(alloc, 1)?;
    hits.push(hit)?;
    Ok(hits)
}

/// The places that a pointer may point to: of their tests one is true where the pointer's object is one of the places, and
/// else none. The only error is that there is no memory.
pub(crate) fn hits_of(
    alloc: Global,
    dag: &mut Dag,
    places: &[Place],
    p: Id,
) -> Result<Vec<Hit>, AllocError>
    requires places { All (PlaceIn dag.old) places.now }
    requires pointer { IsWord dag.old p 64 }
    ensures extends { Extends dag.old dag.new }
    ensures within { IfOk result (λ hs. All (HitIn dag.new (length places.now)) hs.items) }
    ensures found { IfOk result (λ hs. (v : ℕ → ℕ) (top : ℕ) → Rising 0 (spots v dag.old places.now) top → IsFound v dag.new (spots v dag.old places.now) (value v dag.old p) (truly v dag.new hs.items)) }
{
    let object = object_of(dag, p)?;
    let offset = offset_of(dag, p)?;
    let mut hits = Vec::new(alloc);
    for at in 0..places.len() {
        let test = place_test(dag, &places[at], object)?;
        let hit = Hit {
            test,
            place: at,
            offset,
        };
        if is_always(dag, test) {
            let one = alone(alloc, hit)?;
            return Ok(one);
        }
        keep(dag, &mut hits, hit)?;
    }
    Ok(hits)
}
