//! How texts are compared, and how a page is cut.

use crate::blocks::blocks;
use crate::compared::Compared;
use std::process::Abort;
use std::test::Fail;

#[test]
fn compares_what_is_the_same_at_every_run(rt: HostRuntime) {
    let text = "a = 1\nb\n";
    assert_eq!(rt; Compared::Whole.difference(text, text), None);
    assert_eq!(rt; Compared::Whole.difference(text, "a = 2\nb\n"), Some(0));
    assert_eq!(rt; Compared::Whole.difference(text, "a = 1\nb"), Some(2));
    assert_eq!(rt;
        Compared::InOrder.difference(text, "x\na = 1\nx\nb\n"),
        None
    );
    assert_eq!(rt; Compared::InOrder.difference(text, "b\na = 1\n"), Some(1));
    assert_eq!(rt; Compared::ButReplies.difference(text, "a = 2\nb\n"), None);
    assert_eq!(rt;
        Compared::ButReplies.difference(text, "a = 2\nc\n"),
        Some(1)
    );
    assert_eq!(rt;
        Compared::ButReplies.difference(text, "a = 2\nb\nc\n"),
        Some(2)
    );
}

#[test]
fn cuts_a_page_into_its_blocks(rt: HostRuntime) -> Result<(), Fail> {
    let page = "a\n```run first\nb\n\nc\n```\n```text\n```\n```run open\nd\n";
    let found = blocks(rt.alloc(), page)?;
    assert_eq!(rt; found.len(), 2);
    assert_eq!(rt; (found[0].line, found[1].line), (2, 7));
    assert_eq!(rt;
        (found[0].info.as_str(), found[1].info.as_str()),
        ("run first", "text")
    );
    assert_eq!(rt;
        (found[0].text.as_str(), found[1].text.as_str()),
        ("b\n\nc\n", "")
    );
    Ok(())
}
