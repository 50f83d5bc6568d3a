//! The fingerprint of a request: the SHA-256 digest of a text that is written out here in full.
//! Which inputs share one, and the line that a page ends with, are cases of `olr_conformance`.

use crate::samples::{Files, REFERENCE, STREET, map_of};
use olr_candidates::Tolerances;
use olr_keys::Mark;
use olr_matching::fingerprint;
use sha2::{Digest, Sha256};
use std::alloc::Global;
use std::test::Fail;

/// Five nodes, four lines and two bans by no order of their ids; a line has points between its
/// ends.
const SHAPED: Files<'static> = [
    b"id,lon,lat\n5,1000,-5\n2,0,5\n1,0,0\n4,1000,0\n3,500,0\n",
    b"id,from,to,class,form,length,shape\n\
    14,3,5,3,3,557,\n12,2,3,3,3,557,\n11,1,3,3,3,557,250 -1;500 20\n13,3,4,3,3,557,\n",
    b"from,to\n12,14\n11,013\n",
];

/// The text of [`REFERENCE`] on [`STREET`] with the default tolerances.
const STREET_TEXT: &str = "\
olr 2
CwAAAAAAABtoAQBkAAAbGA==
100 4 7 0 30 300
nodes 2
1,0,0
2,1000,0
lines 1
7,1,2,3,3,1113,
bans 0
";

/// The text of a text with a blank inside on [`SHAPED`], with the greatest tolerances.
const SHAPED_TEXT: &str = "\
olr 2
a b
1000 16 7 7 100 10000
nodes 5
1,0,0
2,0,5
3,500,0
4,1000,0
5,1000,-5
lines 4
11,1,3,3,3,557,250 -1;500 20
12,2,3,3,3,557,
13,3,4,3,3,557,
14,3,5,3,3,557,
bans 2
11,13
12,14
";

/// The SHA-256 digest of a text.
fn digest_of(text: &str) -> [u8; 32] {
    let mut hasher = Sha256::new();
    hasher.update(text);
    hasher.finalize()
}

/// Files, the text of a reference, tolerances, and the text of the request.
type Case<'a> = (Files<'a>, &'a str, [u32; 6], &'a str);

/// Whether the fingerprint of a request is the digest of its text.
fn is_digest(alloc: Global, (files, text, values, whole): Case<'_>) -> Result<bool, Fail> {
    let map = map_of(alloc, files)?;
    let [radius, bearing, class, lowest, percent, slack] = values;
    let tolerances = Tolerances::new(radius, bearing, class, lowest, percent, slack)?;
    let Mark(bytes) = fingerprint(alloc, &map, text, &tolerances)?;
    Ok(bytes == digest_of(whole))
}

/// Requests and their texts.
const CASES: &[Case<'static>] = &[
    (STREET, REFERENCE, [100, 4, 7, 0, 30, 300], STREET_TEXT),
    (
        SHAPED,
        " \t\r\na b\n\r\t ",
        [1000, 16, 7, 7, 100, 10_000],
        SHAPED_TEXT,
    ),
];

#[test]
fn gives_the_digest_of_the_text_of_a_request(rt: HostRuntime) -> Result<(), Fail> {
    for &case in CASES {
        assert!(rt; is_digest(rt.alloc(), case)?, "{}", case.3);
    }
    Ok(())
}
