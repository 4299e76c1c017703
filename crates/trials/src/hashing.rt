// The digests of messages that other tools have given.
use crate::digests::{DIGESTS, LONGEST};
use crate::digits::spelled;
use hash::{Sha256, sha256};
use std::array;
use std::test::Fail;

fn pattern() -> [u8; LONGEST] {
    array::from_fn(|i| ((7 * i + 3) % 256) as u8)
}

#[test]
fn standard_examples(rt: HostRuntime) -> Result<(), Fail> {
    assert!(rt;
        sha256(b"") == spelled("e3b0c44298fc1c149afbf4c8996fb92427ae41e4649b934ca495991b7852b855")?
    );
    assert!(rt;
        sha256(b"abc")
            == spelled("ba7816bf8f01cfea414140de5dae2223b00361a396177a9cb410ff61f20015ad")?
    );
    assert!(rt;
        sha256(b"abcdbcdecdefdefgefghfghighijhijkijkljklmklmnlmnomnopnopq")
            == spelled("248d6a61d20638b8e5c026930c3e6039a33ce45964ff2167f6ecedd419db06c1")?
    );
    assert!(rt;
        sha256(
            b"abcdefghbcdefghicdefghijdefghijkefghijklfghijklmghijklmnhijklmnoijklmnopjklmnopqklmnopqrlmnopqrsmnopqrstnopqrstu",
        ) == spelled("cf5b16a778af8380036ce59e7b0492370b249b11e8f07a51afac45037afee9d1")?
    );
    Ok(())
}

#[test]
fn a_million_letters(rt: HostRuntime) -> Result<(), Fail> {
    let piece = [b'a'; 1000];
    let mut hasher = Sha256::new();
    for _ in 0..1000 {
        hasher.update(&piece);
    }
    assert!(rt;
        hasher.finish()
            == spelled("cdc76e5c9914fb9281a1c7e284d73e67f1809a48a497200e046d39ccc7112cd0")?
    );
    Ok(())
}

#[test]
fn every_length(rt: HostRuntime) -> Result<(), Fail> {
    let bytes = pattern();
    for (n, digest) in DIGESTS.iter().enumerate() {
        assert!(rt; sha256(&bytes[..n]) == spelled(digest)?);
    }
    Ok(())
}

#[test]
fn uneven_pieces(rt: HostRuntime) -> Result<(), Fail> {
    let bytes = pattern();
    let mut hasher = Sha256::new();
    hasher.update(&bytes[0..1]);
    hasher.update(&bytes[1..1]);
    hasher.update(&bytes[1..63]);
    hasher.update(&bytes[63..66]);
    hasher.update(&bytes[66..130]);
    assert!(rt; hasher.finish() == spelled(DIGESTS[130])?);
    Ok(())
}
