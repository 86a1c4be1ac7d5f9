//! Texts that have no reading, with the place and the kind of their fault.

use bm_lang::*;
use std::alloc::Global;
use std::process::Abort;
use std::test::Fail;

// What stands before a text of the table.
#[derive(Clone, Copy)]
enum Behind {
    // nothing: the text begins on line 1
    Nothing,
    // the header: line 5
    Header,
    // three types: line 8
    Types,
    // the maps, a handler script, and the front of another script: line 13
    Front,
    // the maps and two whole scripts: line 13
    Scripts,
}

const HEADER: &[u8] = b"scenario {\nprocessors 2\npages 4\ndeferred on\n";

const TYPES: &[u8] = b"type job counted list { a b }\ntype node tree { k }\ntype part { v }\n";

const MAPS: &[u8] = b"slot spare part\nlist q job\ntree t node\n";

const FRONT: &[u8] = b"script h handler { }\nscript m plain {\n";

const SCRIPTS: &[u8] = b"script h handler { }\nscript m plain { }\n";

fn whole(alloc: Global, behind: Behind, text: &[u8]) -> Result<Vec<u8>, Fail> {
    let mut whole = Vec::new(alloc);
    let parts: [&[u8]; 4] = match behind {
        Behind::Nothing => [b"", b"", b"", b""],
        Behind::Header => [HEADER, b"", b"", b""],
        Behind::Types => [HEADER, TYPES, b"", b""],
        Behind::Front => [HEADER, TYPES, MAPS, FRONT],
        Behind::Scripts => [HEADER, TYPES, MAPS, SCRIPTS],
    };
    for part in parts {
        whole.extend_from_slice(part)?;
    }
    whole.extend_from_slice(text)?;
    Ok(whole)
}

fn fault_in(alloc: Global, text: &[u8]) -> Result<Option<BadText>, Fail> {
    if text.len() > 2_000_000 {
        return Err(Fail::from("a long text"));
    }
    match read_scenario(alloc, text) {
        Ok(_) => Ok(None),
        Err(LangFault::Bad(bad)) => Ok(Some(bad)),
        Err(LangFault::NoMemory) => Err(Fail::from("out of memory")),
    }
}

// A text, what stands before it, the line and the column of its fault, and the reason.
type Row<'a> = (Behind, &'a [u8], u32, u32, &'a str);

fn refused(rt: &impl Abort, alloc: Global, kind: BadKind, rows: &[Row<'_>]) -> Result<(), Fail> {
    for (behind, text, line, column, reason) in rows {
        let text = whole(alloc, *behind, text)?;
        let expected = BadText {
            line: *line,
            column: *column,
            kind,
        };
        let found = fault_in(alloc, &text)?;
        assert!(rt; found == Some(expected), "{reason}: {found:?}");
    }
    Ok(())
}

#[test]
fn bytes(rt: HostRuntime) -> Result<(), Fail> {
    use Behind::*;
    refused(
        &rt,
        rt.alloc(),
        BadKind::Byte,
        &[
            (Nothing, b"#", 1, 1, "no token begins so"),
            (Nothing, b" \xc8", 1, 2, "letters are ASCII"),
            (
                Header,
                b"type x { a . b }",
                5,
                12,
                "a stray byte among the fields",
            ),
            (Header, b"# type", 5, 1, "there are no comments"),
            (
                Front,
                b"new x\x0bjob",
                13,
                6,
                "a vertical tab separates nothing",
            ),
            (Front, b"drop x // not", 13, 8, "there are no comments"),
            (
                Scripts,
                b"}\n;",
                14,
                1,
                "a stray byte behind the last brace",
            ),
        ],
    )
}

#[test]
fn numbers(rt: HostRuntime) -> Result<(), Fail> {
    use Behind::*;
    refused(
        &rt,
        rt.alloc(),
        BadKind::Number,
        &[
            (
                Nothing,
                b"01",
                1,
                1,
                "a leading zero, before what is unexpected",
            ),
            (
                Nothing,
                b"scenario { processors 4294967296",
                1,
                23,
                "2 to the 32",
            ),
            (
                Nothing,
                b"scenario { processors 00",
                1,
                23,
                "only 0 itself begins with 0",
            ),
            (
                Front,
                b"repeat 7x { }",
                13,
                8,
                "a run that begins with a digit",
            ),
            (Front, b"7x", 13, 1, "the same where a statement may begin"),
            (Scripts, b"}\n00", 14, 1, "the same behind the last brace"),
        ],
    )
}

#[test]
fn names(rt: HostRuntime) -> Result<(), Fail> {
    use Behind::*;
    refused(
        &rt,
        rt.alloc(),
        BadKind::Name,
        &[
            (
                Nothing,
                b"abcdefghijklmnopqrstuvwxyz_12345",
                1,
                1,
                "32 bytes",
            ),
            (
                Header,
                b"type abcdefghijklmnopqrstuvwxyz_12345 { a }",
                5,
                6,
                "32 bytes",
            ),
            (
                Front,
                b"drop abcdefghijklmnopqrstuvwxyz_12345",
                13,
                6,
                "32 bytes",
            ),
            (
                Front,
                b"section abcdefghijklmnopqrstuvwxyz_12345",
                13,
                9,
                "before what is unexpected",
            ),
        ],
    )
}

#[test]
fn ends(rt: HostRuntime) -> Result<(), Fail> {
    use Behind::*;
    refused(
        &rt,
        rt.alloc(),
        BadKind::End,
        &[
            (Nothing, b"", 1, 1, "an empty text"),
            (Nothing, b" \n\t", 2, 2, "separators alone"),
            (Nothing, b"scenario", 1, 9, "behind the last byte"),
            (
                Nothing,
                b"scenario {\nprocessors 1\n",
                3,
                1,
                "behind a line feed",
            ),
            (
                Nothing,
                b"scenario { processors 1 pages 4294967295 deferred",
                1,
                50,
                "the greatest number is one",
            ),
            (Front, b"new x job 1", 13, 12, "a second value is needed"),
            (Front, b"}\n", 14, 1, "the scenario's own brace is needed"),
            (
                Front,
                b"new abcdefghijklmnopqrstuvwxyz_1234 part",
                13,
                41,
                "31 bytes are a name",
            ),
        ],
    )
}

#[test]
fn what_is_unexpected(rt: HostRuntime) -> Result<(), Fail> {
    use Behind::*;
    refused(
        &rt,
        rt.alloc(),
        BadKind::Unexpected,
        &[
            (Nothing, b"{", 1, 1, "the first word is needed"),
            (
                Nothing,
                b"abcdefghijklmnopqrstuvwxyz_1234",
                1,
                1,
                "a name of 31 bytes where a word is needed",
            ),
            (Nothing, b"scenario scenario", 1, 10, "a brace is needed"),
            (Nothing, b"peek", 1, 1, "no statement may begin here"),
            (Header, b"group g { }", 5, 1, "no word of the language"),
            (
                Header,
                b"type x { 7 }",
                5,
                10,
                "no field begins with a digit",
            ),
            (
                Header,
                b"type x list counted { a }",
                5,
                13,
                "a count comes before a node",
            ),
            (
                Header,
                b"type type { a }",
                5,
                6,
                "a reserved word where a name is needed",
            ),
            (
                Front,
                b"drop if",
                13,
                6,
                "a reserved word where a name is needed",
            ),
            (
                Front,
                b"drop peek",
                13,
                6,
                "a name is needed, and no statement",
            ),
            (Front, b"else { }", 13, 1, "no `if` stands before it"),
            (Front, b"new x job 1 }", 13, 13, "the type has two fields"),
            (Front, b"new x job 1 2 3", 13, 15, "the type has two fields"),
            (
                Front,
                b"xchg y spare null null",
                13,
                19,
                "one thing is given",
            ),
            (Front, b"unlock q", 13, 8, "no name follows"),
            (
                Scripts,
                b"at 0 1 1 h run 0 m",
                13,
                12,
                "`run` lines come first",
            ),
            (
                Scripts,
                b"turns { } turns { }",
                13,
                11,
                "the turns stand once",
            ),
            (
                Scripts,
                b"}\nx",
                14,
                1,
                "nothing stands behind the last brace",
            ),
            (
                Scripts,
                b"}\n}",
                14,
                1,
                "nothing stands behind the last brace",
            ),
        ],
    )
}

#[test]
fn what_is_not_yet(rt: HostRuntime) -> Result<(), Fail> {
    use Behind::*;
    refused(
        &rt,
        rt.alloc(),
        BadKind::NotYet,
        &[
            (Front, b"peek p spare", 13, 1, "the first statement"),
            (Front, b"drop x weak", 13, 8, "behind a statement"),
            (Front, b"if x { } peek", 13, 10, "behind an `if`"),
            (Front, b"if x { weak", 13, 8, "the first of a block"),
        ],
    )
}

#[test]
fn duplicates(rt: HostRuntime) -> Result<(), Fail> {
    use Behind::*;
    refused(
        &rt,
        rt.alloc(),
        BadKind::Duplicate,
        &[
            (Header, b"type a { x }\ntype a { x }", 6, 6, "two types"),
            (Header, b"type a { x y x }", 5, 14, "two fields of a type"),
            (Types, b"slot s part\nlist s job", 9, 6, "a slot and a list"),
            (Scripts, b"script m plain { }", 13, 8, "two scripts"),
            (
                Header,
                b"type abcdefghijklmnopqrstuvwxyz_1234 { a } type abcdefghijklmnopqrstuvwxyz_1234",
                5,
                49,
                "31 bytes are a name",
            ),
        ],
    )
}

#[test]
fn unknowns(rt: HostRuntime) -> Result<(), Fail> {
    use Behind::*;
    refused(
        &rt,
        rt.alloc(),
        BadKind::Unknown,
        &[
            (Types, b"slot s nope", 8, 8, "no type"),
            (Front, b"new x nope", 13, 7, "no type"),
            (Front, b"lock spare", 13, 6, "a slot has no lock"),
            (Front, b"push_front t x", 13, 12, "a tree is no list"),
            (Front, b"pop_back x spare", 13, 12, "a slot is no list"),
            (Front, b"add q x", 13, 5, "a list is no tree"),
            (Front, b"first x q", 13, 9, "a list is no tree"),
            (Front, b"remove x q x", 13, 10, "a list is no tree"),
            (Front, b"xchg y q null", 13, 8, "a list is no slot"),
            (Scripts, b"run 0 nope", 13, 7, "no script"),
            (Scripts, b"run 0 q", 13, 7, "a list is no script"),
            (Scripts, b"at 0 0 1 nope", 13, 10, "no script"),
        ],
    )
}

#[test]
fn what_is_wrong(rt: HostRuntime) -> Result<(), Fail> {
    use Behind::*;
    refused(
        &rt,
        rt.alloc(),
        BadKind::Wrong,
        &[
            (Types, b"list l part", 8, 8, "no list node"),
            (Types, b"list l node", 8, 8, "a tree node is no list node"),
            (Types, b"tree u job", 8, 8, "no tree node"),
            (Header, b"type x tree { }", 5, 15, "no key"),
            (Header, b"type x tree { pad 8 }", 5, 21, "a pad is no key"),
            (
                Header,
                b"type x tree { pad 4096 }",
                5,
                24,
                "before the size",
            ),
            (Scripts, b"run 0 h", 13, 7, "a handler script"),
            (Scripts, b"at 0 0 1 m", 13, 10, "no handler script"),
        ],
    )
}

#[test]
fn ranges(rt: HostRuntime) -> Result<(), Fail> {
    use Behind::*;
    refused(
        &rt,
        rt.alloc(),
        BadKind::Range,
        &[
            (Nothing, b"scenario { processors 0", 1, 23, "no processor"),
            (Scripts, b"run 2 m", 13, 5, "processors are 0 and 1"),
            (Scripts, b"at 2 0 1 h", 13, 4, "processors are 0 and 1"),
            (Scripts, b"at 0 0 0 h", 13, 8, "the lowest level is 1"),
            (Scripts, b"at 0 0 4 h", 13, 8, "the highest level is 3"),
            (
                Scripts,
                b"turns { 0 1 2 }",
                13,
                13,
                "processors are 0 and 1",
            ),
            (Header, b"type x { pad 4 }", 5, 14, "no multiple of 8"),
            (
                Header,
                b"type x { a pad 4095 }",
                5,
                16,
                "no multiple of 8, before the size",
            ),
        ],
    )
}

#[test]
fn type_sizes(rt: HostRuntime) -> Result<(), Fail> {
    use Behind::*;
    refused(
        &rt,
        rt.alloc(),
        BadKind::TypeSize,
        &[
            (Header, b"type x { }", 5, 10, "0 bytes"),
            (Header, b"type x { pad 0 }", 5, 16, "0 bytes"),
            (Header, b"type x { pad 4096 }", 5, 19, "4096 bytes"),
            (Header, b"type x { a pad 4088 }", 5, 21, "8 and 4088 bytes"),
            (
                Header,
                b"type x counted list { pad 4064 }",
                5,
                32,
                "8, 24 and 4064 bytes",
            ),
            (Header, b"type x { pad 4294967288 }", 5, 25, "a great pad"),
            (
                Nothing,
                b"scenario { processors 1 pages 1 deferred on type t { pad 4096 } }",
                1,
                63,
                "4096 bytes",
            ),
        ],
    )
}

#[test]
fn depths(rt: HostRuntime) -> Result<(), Fail> {
    use Behind::*;
    refused(
        &rt,
        rt.alloc(),
        BadKind::Depth,
        &[
            (
                Front,
                b"repeat 1 { repeat 1 { repeat 1 { repeat 1 { repeat 1 { repeat 1 { repeat 1 { repeat 1 { repeat 1 { repeat 1 { repeat 1 { repeat 1 { repeat 1 { repeat 1 { repeat 1 {\nsection {",
                14,
                9,
                "the script's own block, fifteen more, and another",
            ),
            (
                Front,
                b"section { section { section { section { section { section { section { section { section { section { section { section { section { section { section {\nif x {",
                14,
                6,
                "the same at an `if`",
            ),
            (
                Front,
                b"section { section { section { section { section { section { section { section { section { section { section { section { section { section {\nif x { } else { section {",
                14,
                25,
                "the block of an `else` is the sixteenth",
            ),
        ],
    )
}

fn accepted(rt: &impl Abort, alloc: Global, rows: &[(Behind, &[u8])]) -> Result<(), Fail> {
    for (behind, text) in rows {
        let text = whole(alloc, *behind, text)?;
        let found = fault_in(alloc, &text)?;
        assert!(rt; found == None, "{found:?} in {text:?}");
    }
    Ok(())
}

// Texts that have a reading, near those that have none.
#[test]
fn readings(rt: HostRuntime) -> Result<(), Fail> {
    use Behind::*;
    let rows: &[(Behind, &[u8])] = &[
        (Header, b"type x { pad 4088 } }"),
        (Header, b"type x counted tree { k pad 4040 } }\n\t \r"),
        (
            Header,
            b"type x { x pad 0 } slot x x script x plain { } run 1 x turns { } }",
        ),
        (
            Scripts,
            b"run 0 m run 1 m at 1 4294967295 3 h at 0 0 1 h turns { 0 1 0 } }",
        ),
        (
            Front,
            b"section { section { section { section { section { section { section { section { section { section { section { section { section { section { section { } } } } } } } } } } } } } } } } }",
        ),
        (
            Front,
            b"section { } section { } section { } section { } section { } section { } section { } section { } section { } section { } section { } section { } section { } section { } section { } section { } section { } } }",
        ),
        (
            Front,
            b"new x job 4294967295 0 if x { drop x } else { } acquire y x get x a xchg y spare x xchg y spare null repeat 0 { } lock q push_front q x push_back q x pop_front x q pop_back x q unlock yield lock t add t x first f t remove y t f unlock } run 0 m }",
        ),
        (
            Front,
            b"drop group drop get_ drop abcdefghijklmnopqrstuvwxyz_1234 } }",
        ),
    ];
    accepted(&rt, rt.alloc(), rows)
}
