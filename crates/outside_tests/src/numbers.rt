//! Numbers of job words.

use numerals::numeral::number;

#[test]
fn numbers_have_one_spelling(rt: HostRuntime) {
    let most = u64::MAX;
    let words = [
        ("0", Some(0)),
        ("7", Some(7)),
        ("18446744073709551615", Some(most)),
        ("18446744073709551616", None),
        ("007", None),
        ("01", None),
        ("+1", None),
        ("", None),
        ("1a", None),
    ];
    for (word, wanted) in words {
        assert_eq!(rt; number(word, most), wanted, "{word}");
    }
    assert_eq!(rt; number("8", 7), None);
}
