// Whether a module is standing: tags 1 to 11 come first and never fall, no parameter follows a label in its function, tag 4 occurs
// exactly once, and no function without a body comes after one with a body.
#![tactic(auto)]

ghost use Rattle.std.specs.Prelude.{◌≡◌};
ghost use Rattle.spec.specs.Write.{standing as standing_of};
ghost use Rattle.records.specs.Steps.{given};
ghost use Rattle.standing.specs.Stand.{may_come, order_after};

use spec::{Stands, refusals, tags};

// Where a pass over the tags is: the tag before, 12 after the first instruction of a function; whether a label came in the
// function; whether a MemoryModel came; whether a function with a body came.
#[derive(Clone, Copy)]
struct Order {
    before: u32,
    label: bool,
    model: bool,
    body: bool,
}

// Whether a tag may come there.
#[tactic(auto, unfolding(crate::specs::Stand::may_come))]
fn may_come(o: Order, tag: u32) -> bool
    ensures { result ≡ may_come o tag }
{
    ((tags::FUNCTION <= tag) | (o.before <= tag))
        & !((tag == tags::PARAMETER) & o.label)
        & !((tag == tags::MEMORY_MODEL) & o.model)
        & !((tag == tags::FUNCTION_END) & (!o.label & o.body))
}

// Where the pass is after a tag.
fn order_after(o: Order, tag: u32) -> Order
    ensures { result ≡ order_after o tag }
{
    let label = !(tag == tags::FUNCTION) & (o.label | (tag == tags::LABEL));
    let model = o.model | (tag == tags::MEMORY_MODEL);
    let body = o.body | ((tag == tags::FUNCTION_END) & o.label);
    Order {
        before: tag.min(tags::FUNCTION),
        label,
        model,
        body,
    }
}

// Whether the records are those of a standing module: a yes or no, or 30 with the index of the first bad record.
pub fn standing(
    instructions: &[u32],
    log: &[u8],
    strings: &[u8],
    instruction_count: usize,
    log_count: usize,
    string_count: usize,
) -> Stands
    ensures { result ≡ standing_of (given instructions.now log.now strings.now instruction_count log_count string_count) }
{
    let checked = records::check(
        true,
        instructions,
        log,
        strings,
        instruction_count,
        log_count,
        string_count,
    );
    if let Some(index) = checked {
        return Stands {
            number: refusals::BAD_RECORDS,
            index,
            yes: false,
        };
    }
    let mut o = Order {
        before: 0,
        label: false,
        model: false,
        body: false,
    };
    for i in 0..instruction_count {
        let f = records::record_at(instructions, i);
        if !may_come(o, f.tag) {
            return Stands {
                number: refusals::ACCEPTED,
                index: 0,
                yes: false,
            };
        }
        o = order_after(o, f.tag);
    }
    Stands {
        number: refusals::ACCEPTED,
        index: 0,
        yes: o.model,
    }
}
