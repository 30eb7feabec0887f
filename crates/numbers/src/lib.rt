// Which function, which block: the numbers of records, one after the other, by their tags.
#![tactic(auto)]

ghost use Rattle.std.specs.Prelude.{◌≡◌, ◌<◌};
ghost use Rattle.spec.specs.Numbers.{in_function, onward as onward_by, numbers_of};
ghost use Rattle.numbers.specs.Counting.{step_of};

use spec::{Numbers, tags};

// A record counted: what has begun with it, and its own numbers.
#[derive(Clone, Copy)]
pub struct Step {
    pub begun: Numbers,
    pub own: Numbers,
}

// In a function, in none of its blocks; in function 0 is in none.
fn in_function(function: u32) -> Numbers
    ensures { result ≡ in_function function }
{
    Numbers { function, block: 0 }
}

// How many functions have begun, and how many blocks of the last of them, with a record of a tag more.
#[tactic(auto, unfolding(spec::specs::Numbers::onward))]
fn onward(tag: u32, n: Numbers) -> Numbers
    requires { (n.function < 4294967295) × (n.block < 4294967295) }
    ensures { result ≡ onward_by tag n }
{
    match tag {
        tags::FUNCTION => Numbers {
            function: n.function + 1,
            block: 0,
        },
        tags::LABEL => Numbers {
            block: n.block + 1,
            ..n
        },
        _ => n,
    }
}

// The numbers of a record of a tag, where so many have begun with it.
#[tactic(auto, unfolding(spec::specs::Numbers::numbers_of))]
fn numbers_of(tag: u32, n: Numbers) -> Numbers
    ensures { result ≡ numbers_of tag n }
{
    match tag {
        tags::LABEL..=tags::BLOCK => n,
        tags::FUNCTION..=tags::FUNCTION_END => in_function(n.function),
        _ => in_function(0),
    }
}

// A record of a tag, where so many have begun before it.
pub fn count(tag: u32, n: Numbers) -> Step
    requires { (n.function < 4294967295) × (n.block < 4294967295) }
    ensures { result ≡ step_of tag n }
{
    let begun = onward(tag, n);
    let own = numbers_of(tag, begun);
    Step { begun, own }
}
