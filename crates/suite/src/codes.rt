// Codes, words and texts of the records, and checks over positions.
use fault::check_each;
use lines::{hex, whole};
use records::{Kind, Sign, UnknownCode};
use std::process::Abort;
use std::test::Fail;

// Both ways between kinds and codes, and what a code past the last is.
#[test]
fn kinds(rt: HostRuntime) -> Result<(), Fail> {
    for (code, kind, word) in [
        (0, Kind::AnyOf, "any-of"),
        (1, Kind::AllOf, "all-of"),
        (2, Kind::Fixed, "fixed"),
    ] {
        assert_eq!(rt; (u8::from(kind), Kind::try_from(code)), (code, Ok(kind)));
        assert_eq!(rt; format!(in rt.alloc(); "{kind}")?.as_str(), word);
    }
    for code in [3, 255] {
        assert_eq!(rt; Kind::try_from(code), Err(UnknownCode(code)));
        assert_eq!(rt; Kind::of(code), Kind::Fixed);
    }
    let text = format!(in rt.alloc(); "{}", UnknownCode(255))?;
    assert_eq!(rt; text.as_str(), "nothing has the code 255");
    Ok(())
}

#[test]
fn signs(rt: HostRuntime) -> Result<(), Fail> {
    for (code, sign, word) in [(0, Sign::Least, "least"), (1, Sign::Greatest, "greatest")] {
        assert_eq!(rt; (u8::from(sign), Sign::try_from(code)), (code, Ok(sign)));
        assert_eq!(rt; format!(in rt.alloc(); "{sign}")?.as_str(), word);
    }
    for code in [2, 255] {
        assert_eq!(rt; Sign::try_from(code), Err(UnknownCode(code)));
        assert_eq!(rt; Sign::of(code), Sign::Greatest);
    }
    Ok(())
}

// The first position at fault, of those below the count.
#[test]
fn positions(rt: HostRuntime) {
    let odd = |i: u32| -> Result<(), u32> { if i % 2 == 1 { Err(i) } else { Ok(()) } };
    for (count, answer) in [(0, Ok(())), (1, Ok(())), (2, Err(1)), (9, Err(1))] {
        assert_eq!(rt; check_each(count, odd), answer);
    }
}

// Pieces of text in their order, and sixteen digits.
#[test]
fn texts(rt: HostRuntime) -> Result<(), Fail> {
    let alloc = rt.alloc();
    for (count, text) in [(0, ""), (1, "0,"), (3, "0,1,2,")] {
        let told = whole(alloc, count, |i| format!(in alloc; "{i},"))?;
        assert_eq!(rt; told.as_str(), text);
    }
    for (x, text) in [
        (0, "0000000000000000"),
        (0x0123_4567_89AB_CDEF, "0123456789ABCDEF"),
        (u64::MAX, "FFFFFFFFFFFFFFFF"),
    ] {
        assert_eq!(rt; hex(alloc, x)?.as_str(), text);
    }
    Ok(())
}
