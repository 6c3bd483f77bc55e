ghost use Rattle.std.specs.Prelude.{◌≡◌, IfOk, codes};
ghost use Rattle.ix_examples.specs.SmallGivens.{text_of, document};
ghost use Rattle.ix_examples.specs.SmallPlans.{only_a as a_alone};
ghost use Rattle.ix_marks.specs.InRange.{AreIn};
ghost use Rattle.ix_marks.specs.Standing.{StandsFor};

use crate::{bytes, failed_bytes, size, write};
use ix_edge::MemSink;
use ix_examples::plans::only_a;
use ix_marks::{Marked, marked};
use ix_model::{Mark, Plan, State, Step};
use std::alloc::{AllocError, Global};
use std::test::Fail;

// An element whose content is the text `&`.
fn ampersand_tree(alloc: Global, plan: &Plan) -> Result<Marked, AllocError>
    requires { plan.now ≡ a_alone (codes "&") }
    ensures there { IfOk result (AreIn plan.now.rules.names) }
    ensures document { IfOk result (λ m. StandsFor plan.now.rules.names m (document (text_of (codes "&")))) }
{
    let root = Step::Enter {
        name: 0,
        mark: Mark::Element,
    };
    let text = Step::Text {
        low: 0,
        high: 1,
        shown: true,
    };
    marked(alloc, plan, &[root, text, Step::Leave])
}

#[test]
fn an_ambiguous_root_says_so(rt: HostRuntime) -> Result<(), Fail> {
    let alloc = rt.alloc();
    let plan = only_a(alloc, &['&'])?;
    let tree = ampersand_tree(alloc, &plan)?;
    let document = bytes(alloc, &plan, &tree, State::Ambiguous)?;
    let expected: &[u8] =
        b"<S xmlns:ixml=\"http://invisiblexml.org/NS\" ixml:state=\"ambiguous\">&amp;</S>\n";
    assert_eq!(rt; document.as_slice(), expected);
    Ok(())
}

#[test]
fn a_document_goes_through_sixteen_bytes(rt: HostRuntime) -> Result<(), Fail> {
    let alloc = rt.alloc();
    let plan = only_a(alloc, &['&'])?;
    let tree = ampersand_tree(alloc, &plan)?;
    let mut out = MemSink::new(alloc, 64, Vec::new(alloc), 0)?;
    let mut buffer = [0; 16];
    let written = write(&plan, &tree, State::Single, &mut out, &mut buffer);
    let expected: &[u8] = b"<S>&amp;</S>\n";
    assert_eq!(rt; written.is_ok(), true);
    assert_eq!(rt; out.bytes(), expected);
    Ok(())
}

#[test]
fn a_document_has_its_size(rt: HostRuntime) -> Result<(), Fail> {
    let alloc = rt.alloc();
    let plan = only_a(alloc, &['&'])?;
    let tree = ampersand_tree(alloc, &plan)?;
    assert_eq!(rt; size(&plan, &tree, State::Single), Some(13));
    Ok(())
}

#[test]
fn the_failed_document_names_the_place(rt: HostRuntime) -> Result<(), Fail> {
    let document = failed_bytes(rt.alloc(), 4_294_967_295, 2, 17)?;
    let expected: &[u8] =
        b"<fail xmlns:ixml=\"http://invisiblexml.org/NS\" ixml:state=\"failed\" offset=\"4294967295\" line=\"2\" column=\"17\"/>\n";
    assert_eq!(rt; document.as_slice(), expected);
    Ok(())
}
