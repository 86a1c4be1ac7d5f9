//! Words and numbers, and what is none.

use bm_word::{Name, is_word, put_number, read_number};
use std::test::Fail;

#[test]
fn numbers_are_printed_and_read(rt: HostRuntime) -> Result<(), Fail> {
    let table: [(u64, &[u8]); 4] = [
        (0, b"0"),
        (7, b"7"),
        (1048576, b"1048576"),
        (18446744073709551615, b"18446744073709551615"),
    ];
    for (number, text) in table {
        let mut out = Vec::new(rt.alloc());
        put_number(&mut out, number)?;
        assert_eq!(rt; out.as_slice(), text);
        assert_eq!(rt; read_number(text), Some(number));
    }
    let refused: [&[u8]; 6] = [b"", b"00", b"07", b"+7", b"7x", b"18446744073709551616"];
    for text in refused {
        assert_eq!(rt; read_number(text), None);
    }
    Ok(())
}

#[test]
fn words_are_names(rt: HostRuntime) -> Result<(), Fail> {
    let words: [&[u8]; 4] = [b"x", b"_7", b"main", b"abcdefghijklmnopqrstuvwxyz_0123"];
    for word in words {
        let name = Name::new(word).ok_or("a word is a name")?;
        assert_eq!(rt; name.as_bytes(), word);
        assert_eq!(rt; name.duplicate().as_bytes(), word);
    }
    let others: [&[u8]; 5] = [
        b"",
        b"7x",
        b"a-b",
        b"a b",
        b"abcdefghijklmnopqrstuvwxyz_01234",
    ];
    for other in others {
        assert!(rt; Name::new(other).is_none());
        assert!(rt; !is_word(other));
    }
    Ok(())
}
