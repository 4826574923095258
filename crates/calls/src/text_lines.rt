// The lines of `logwatch`: each form of answer, with its exact text.
use cells::laid_rule::LaidRule;
use monitor::watch::Watch;
use scale::verdict::Verdict;
use std::alloc::Global;
use std::test::Fail;
use watch_lines::watching::{rule_line, watch_line};

// The rule of a text that is accepted.
fn laid(heap: Global, text: &[u8]) -> Result<LaidRule, Fail> {
    rule_line(heap, text)?.map_err(Fail::new)
}

// The answers to lines, which bring a rule, one after the other.
fn said<'b>(
    heap: Global,
    rule: &LaidRule,
    watch: &mut Watch<'b, Verdict>,
    spare: &mut [Verdict],
    lines: [&[u8]; 4],
) -> Result<String, Fail> {
    let mut all = String::new(heap);
    for line in lines {
        let text = watch_line(heap, rule, watch, spare, line)?;
        all.push_str(text.as_str())?;
    }
    Ok(all)
}

// The answers to lines, which bring one rule, of a watch for another.
fn answers(
    heap: Global,
    own: &[u8],
    brought: &[u8],
    table: &mut [Verdict],
    lines: [&[u8]; 4],
) -> Result<String, Fail> {
    let own = laid(heap, own)?;
    let brought = laid(heap, brought)?;
    let mut spare = [Verdict::Broken; 312];
    let mut watch = Watch::open(&own, table);
    said(heap, &brought, &mut watch, &mut spare, lines)
}

// The line that a refused rule is answered with; none where it is accepted.
fn rule_refusal(heap: Global, text: &[u8]) -> Result<Option<String>, Fail> {
    Ok(rule_line(heap, text)?.err())
}

#[test]
fn letters_are_answered(rt: HostRuntime) -> Result<(), Fail> {
    let mut table = [Verdict::Broken; 4];
    let rule = b"Uef01yh02";
    let lines: [&[u8]; 4] = [b"0000", b"00", b"0000", b"0006"];
    let text = answers(rt.alloc(), rule, rule, &mut table, lines)?;
    assert_eq!(rt; text.as_str(), "1 2 0 3\n! 19\n2 2 0 3\n3 3 3 3\n");
    Ok(())
}

#[test]
fn a_jump_at_the_announced_midnight_is_kept(rt: HostRuntime) -> Result<(), Fail> {
    let mut table = [Verdict::Broken; 256];
    let rule = b"Uef00y&h01h02";
    let lines: [&[u8]; 4] = [b"0000", b"0002", b"0007", b"0001"];
    let text = answers(rt.alloc(), rule, rule, &mut table, lines)?;
    assert_eq!(rt; text.as_str(), "1 2 0 3\n2 2 0 3\n3 3 3 3\n4 3 3 3\n");
    Ok(())
}

#[test]
fn another_rule_is_refused(rt: HostRuntime) -> Result<(), Fail> {
    let mut table = [Verdict::Broken; 256];
    let lines: [&[u8]; 4] = [b"0000", b"", b"000G", b"00000"];
    let text = answers(rt.alloc(), b"Uef01yh02", b"Uef01yh03", &mut table, lines)?;
    assert_eq!(rt; text.as_str(), "! 7\n! 19\n! 19\n! 19\n");
    Ok(())
}

#[test]
fn a_short_table_is_refused(rt: HostRuntime) -> Result<(), Fail> {
    let mut table = [Verdict::Broken; 3];
    let rule = b"Uef01yh02";
    let lines: [&[u8]; 4] = [b"0000", b"00 0", b"ffff", b"0006"];
    let text = answers(rt.alloc(), rule, rule, &mut table, lines)?;
    assert_eq!(rt; text.as_str(), "! 8\n! 19\n! 8\n! 8\n");
    Ok(())
}

#[test]
fn rules_are_refused(rt: HostRuntime) -> Result<(), Fail> {
    let cases: [(&[u8], Option<&str>); 6] = [
        (b"", Some("! 1\n")),
        (b"h16", Some("! 2\n")),
        (b"Uef01y", Some("! 3\n")),
        (b"Uef01yh02y", Some("! 4\n")),
        (b"EyEyEyEyEyEyEyEyh00", Some("! 6\n")),
        (b"Uef01yh02", None),
    ];
    for (text, expected) in cases {
        let line = rule_refusal(rt.alloc(), text)?;
        assert_eq!(rt; line.as_deref(), expected);
    }
    Ok(())
}
