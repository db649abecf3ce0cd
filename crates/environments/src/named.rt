// What the names of a table, 0 to 63, stand for in an environment.
ghost use Rattle.std.specs.Prelude.{◌≡◌, List, [], ◌∷◌, ℕ, ◌<◌};
ghost use Rattle.sides.specs.Environments.{env_of};
ghost use Rattle.environments.specs.Fits.{Fits};
ghost use Rattle.environments.specs.Named.{OfPlaces, OfNames};

use tables::name_set::NameSet;

// By each name of a table what f says of the last place that is its own, and `none` for a name that has no place.
pub(crate) fn by_names<T: Copy, F: Fn(usize) -> T>(
    e: &[u32],
    n: usize,
    none: T,
    f: F,
) -> [T; NameSet::NAMES]
    requires fits { Fits e.now n }
    requires can { (k : ℕ) → k < n → F.pre f k }
    ensures { (g : List ℕ → T) (d : T) → OfPlaces (F.post f) g e.now n → ((m : ℕ) → m < 64 → none ≡ g (m ∷ [])) → OfNames result d g (env_of e.now n) }
{
    let mut found = [none; NameSet::NAMES];
    for k in 0..n {
        let x = e[k] as usize;
        if x < NameSet::NAMES {
            found[x] = f(k);
        }
    }
    found
}
