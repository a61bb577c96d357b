// Whether a list holds something twice: the test of the entries' names and of the objectives' codes.
ghost use Rattle.std.specs.Prelude.{◌<◌, length};
ghost use Rattle.basis.specs.Tests.{Decides};
ghost use Rattle.catalogue.specs.Parts.{RepeatsAt, Repeats};

// Whether the item at place i stands before it too.
fn stands_before<N: Copy + PartialEq>(items: &[N], i: usize) -> bool
    requires { i < length items.now }
    ensures { Decides result (RepeatsAt N.eq items.now i) }
{
    items[..i].contains(&items[i])
}

// Whether some item stands twice.
pub fn stands_twice<N: Copy + PartialEq>(items: &[N]) -> bool
    ensures { Decides result (Repeats N.eq items.now) }
{
    (0..items.len()).any(|i| stands_before(items, i))
}
