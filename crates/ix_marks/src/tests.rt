use crate::{Attr, Item, marked};
use ix_examples::plans::only_a;
use ix_model::{Mark, Step};
use std::test::Fail;

const ROOT: Step = Step::Enter {
    name: 0,
    mark: Mark::Element,
};

const HIDDEN: Step = Step::Enter {
    name: 0,
    mark: Mark::Hidden,
};

const ATTRIBUTE: Step = Step::Enter {
    name: 0,
    mark: Mark::Attribute,
};

// An element whose only part is a hidden node, which holds an attribute and a text: `<S S="v">t</S>`.
#[test]
fn a_hidden_node_hands_on_what_it_holds(rt: HostRuntime) -> Result<(), Fail> {
    let alloc = rt.alloc();
    let plan = only_a(alloc, &['v', 't'])?;
    let tree = marked(
        alloc,
        &plan,
        &[
            ROOT,
            HIDDEN,
            ATTRIBUTE,
            Step::Text {
                low: 0,
                high: 1,
                shown: true,
            },
            Step::Leave,
            Step::Text {
                low: 1,
                high: 2,
                shown: true,
            },
            Step::Leave,
            Step::Leave,
        ],
    )?;
    let begin = Item::Begin {
        name: 0,
        attr_low: 0,
        attr_high: 1,
    };
    let run = Item::Chars { low: 1, high: 2 };
    let value = Attr {
        name: 0,
        low: 0,
        high: 1,
    };
    assert_eq!(rt;
        tree.items(),
        [begin, run, Item::Close { name: 0 }].as_slice()
    );
    assert_eq!(rt; tree.attrs(), [value].as_slice());
    assert_eq!(rt; tree.top().len(), 0);
    assert_eq!(rt; tree.chars(), ['v', 't'].as_slice());
    assert_eq!(rt; tree.repeat(), None);
    Ok(())
}
