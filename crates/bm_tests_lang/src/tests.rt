use bm_lang::*;
use std::alloc::Global;
use std::process::Abort;
use std::test::Fail;

// A token at a line and a column.
type Expected<'a> = (Token<'a>, u32, u32);

fn expect(rt: &impl Abort, text: &[u8], tokens: &[Expected<'_>]) {
    let short = text.len() < 1000;
    assert!(rt; short);
    let mut left = Tokens::new(text);
    for (token, line, column) in tokens {
        let place = Place {
            line: *line,
            column: *column,
        };
        let ahead = left.peek();
        let next = left.take();
        let agrees = next.token == *token && next.place == place && ahead == next;
        assert!(rt; agrees, "in {text:?} at {line}:{column}");
    }
}

#[test]
fn places(rt: HostRuntime) {
    expect(&rt, b"", &[(Token::End, 1, 1), (Token::End, 1, 1)]);
    expect(&rt, b" \n ", &[(Token::End, 2, 2), (Token::End, 2, 2)]);
    expect(
        &rt,
        b"scenario {\nprocessors 1\n",
        &[
            (Token::Keyword(Keyword::Scenario), 1, 1),
            (Token::Open, 1, 10),
            (Token::Keyword(Keyword::Processors), 2, 1),
            (Token::Number(1), 2, 12),
            (Token::End, 3, 1),
        ],
    );
    expect(
        &rt,
        b"{}a\tb\rc\r\n\n\td",
        &[
            (Token::Open, 1, 1),
            (Token::Close, 1, 2),
            (Token::Name(b"a"), 1, 3),
            (Token::Name(b"b"), 1, 5),
            (Token::Name(b"c"), 1, 7),
            (Token::Name(b"d"), 3, 2),
            (Token::End, 3, 3),
        ],
    );
}

// Each text begins with a token.
fn expect_each(rt: &impl Abort, rows: &[(&[u8], Token<'_>)]) {
    for (text, token) in rows {
        expect(rt, text, &[(*token, 1, 1)]);
    }
}

const NUMBER: Token<'static> = Token::Wrong(TokenFault::Number);

const NUMBERS_AND_WORDS: &[(&[u8], Token<'static>)] = &[
    (b"0", Token::Number(0)),
    (b"10", Token::Number(10)),
    (b"4294967295", Token::Number(4294967295)),
    (b"4294967296", NUMBER),
    (b"18446744073709551616", NUMBER),
    (b"00", NUMBER),
    (b"01", NUMBER),
    (b"7x", NUMBER),
    (b"7_", NUMBER),
    (b"_x", Token::Name(b"_x")),
    (b"_", Token::Name(b"_")),
    (b"x7", Token::Name(b"x7")),
    (b"Scenario", Token::Name(b"Scenario")),
    (b"scenari", Token::Name(b"scenari")),
    (b"group", Token::Name(b"group")),
    (b"push_front", Token::Keyword(Keyword::PushFront)),
    (b"peek", Token::Keyword(Keyword::Peek)),
    (b"weak", Token::Keyword(Keyword::Weak)),
    (
        b"abcdefghijklmnopqrstuvwxyz_1234",
        Token::Name(b"abcdefghijklmnopqrstuvwxyz_1234"),
    ),
    (
        b"abcdefghijklmnopqrstuvwxyz_12345",
        Token::Wrong(TokenFault::Name),
    ),
];

#[test]
fn numbers_and_words(rt: HostRuntime) {
    expect_each(&rt, NUMBERS_AND_WORDS);
}

#[test]
fn stray_bytes(rt: HostRuntime) {
    let byte = Token::Wrong(TokenFault::Byte);
    for stray in [200, 0, 11, 12, 127, 255, b'-', b'.', b'#', b'[', b'@', b'`'] {
        let text = [b'a', stray, b'1'];
        expect(
            &rt,
            &text,
            &[
                (Token::Name(b"a"), 1, 1),
                (byte, 1, 2),
                (Token::Number(1), 1, 3),
                (Token::End, 1, 4),
            ],
        );
    }
}

// Each word of the list is reserved, and spelled as it is there; the next one in the list is another word.
#[test]
fn reserved_words(rt: HostRuntime) {
    let text =
        "scenario processors pages deferred on off type counted list tree pad slot script plain sleepable \
                handler run at turns new drop acquire get xchg null if else repeat section lock unlock yield \
                push_front push_back pop_front pop_back add first remove peek weak";
    let mut before = Keyword::Weak;
    for word in text.split_whitespace() {
        let found = keyword_of(word.as_bytes()).expect(&rt, word);
        assert!(rt; found.text() == word.as_bytes(), "{word}");
        assert!(rt; found.is(found), "{word}");
        assert!(rt; !found.is(before), "{word}");
        before = found;
    }
}

fn are_words(rt: &impl Abort, alloc: Global, rows: &[(BadKind, &str)]) -> Result<(), Fail> {
    for (kind, word) in rows {
        assert_eq!(rt; kind.text(), word.as_bytes());
        let printed = format!(in alloc; "{kind}")?;
        assert_eq!(rt; printed.as_str(), *word);
    }
    Ok(())
}

#[test]
fn words_for_kinds(rt: HostRuntime) -> Result<(), Fail> {
    are_words(
        &rt,
        rt.alloc(),
        &[
            (BadKind::Byte, "byte"),
            (BadKind::NotYet, "not_yet"),
            (BadKind::TypeSize, "type_size"),
            (BadKind::Depth, "depth"),
        ],
    )
}

#[test]
fn laws(_rt: HostRuntime) {
    keywords_are_spelled();
    parts_are_tokens();
    places_are_places_alone();
    tokens_are_legal();
}
