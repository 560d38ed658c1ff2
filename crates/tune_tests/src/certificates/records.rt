//! Certificates with either answer: they are read and written.

use crate::fixtures::{FIVE, five_rows};
use crate::writers::{Failing, PIECE};
use rc_instr::Outlet;
use std::alloc::Global;
use std::test::Fail;
use tune_cert::{
    Answer, Best, CertFault, Listing, ReadFault, Row, Rows, read_cert, read_statement,
    write_answer, write_cert,
};

#[test]
fn a_certificate_is_read(rt: HostRuntime) -> Result<(), Fail> {
    let cert = read_cert(rt.alloc(), FIVE)?;
    assert_eq!(rt; (cert.count, cert.best, cert.total), (5, 2, 7));
    match cert.rows.as_slice() {
        [
            Row::Refused,
            Row::Cap(falling),
            Row::Cap(all),
            Row::Cap(none),
            Row::Same(of),
        ] => {
            assert_eq!(rt; falling.as_slice(), [(10, 0), (4, 3)].as_slice());
            assert_eq!(rt; all.as_slice(), [(0, 3), (1, 1), (2, 3)].as_slice());
            assert!(rt; none.as_slice().is_empty());
            assert_eq!(rt; *of, 4_294_967_295);
        }
        _ => assert!(rt; false, "the rows are of other kinds"),
    }
    Ok(())
}

#[test]
fn a_certificate_with_a_best_setting_is_read_with_and_without_floors(
    rt: HostRuntime,
) -> Result<(), Fail> {
    for floors in [true, false] {
        let statement = read_statement(rt.alloc(), floors, FIVE)?;
        let best = Best {
            vector: 2,
            total: 7,
        };
        assert_eq!(rt; statement.answer, Answer::Best(best));
        assert_eq!(rt; statement.rows.as_slice().len(), 5);
    }
    Ok(())
}

// No setting totals 7 or more: the first does not assemble, and the second lost two points.
const NONE_FROM_7: &[u8] = b"cwcert,1,2\nnone,-,7\nrefused,0,-\ncap,1,0:1\n";

#[test]
fn a_certificate_without_a_best_setting_is_read(rt: HostRuntime) -> Result<(), Fail> {
    let statement = read_statement(rt.alloc(), true, NONE_FROM_7)?;
    assert_eq!(rt; (statement.version, statement.count), (1, 2));
    assert_eq!(rt; statement.answer, Answer::NoneFrom(7));
    match statement.rows.as_slice() {
        [Row::Refused, Row::Cap(listing)] => {
            assert_eq!(rt; listing.as_slice(), [(0, 1)].as_slice());
        }
        _ => assert!(rt; false, "the rows are of other kinds"),
    }
    Ok(())
}

// Whether floors are read, and a certificate whose record 1 is then neither a best setting nor a
// floor.
const MALFORMED: [(bool, &[u8]); 6] = [
    (true, b"cwcert,1,0\n"),
    (true, b"cwcert,1,0\nnone,0,7\n"),
    (true, b"cwcert,1,0\nnone,-,07\n"),
    (true, b"cwcert,1,0\nnone,-,4294967296\n"),
    (true, b"cwcert,1,0\nnone,-\n"),
    (false, NONE_FROM_7),
];

#[test]
fn another_record_1_is_malformed(rt: HostRuntime) -> Result<(), Fail> {
    for &(floors, text) in &MALFORMED {
        match read_statement(rt.alloc(), floors, text) {
            Ok(_) => assert!(rt; false, "it is read"),
            Err(fault) => assert_eq!(rt; fault, ReadFault::Malformed { row: 1 }),
        }
    }
    match read_cert(rt.alloc(), NONE_FROM_7) {
        Ok(_) => assert!(rt; false, "it is read"),
        Err(fault) => assert_eq!(rt; fault, ReadFault::Malformed { row: 1 }),
    }
    Ok(())
}

#[test]
fn a_certificate_without_a_best_setting_is_written(rt: HostRuntime) -> Result<(), Fail> {
    let mut rows = Vec::new(rt.alloc());
    rows.push(Row::Refused)?;
    rows.push(Row::Cap(Listing::from_vec([(0, 1)].to_vec(rt.alloc())?)))?;
    let rows = Rows::from_vec(rows);
    let mut out = Outlet::new(Vec::with_capacity(rt.alloc(), 64)?);
    write_answer(rt.alloc(), 1, Answer::NoneFrom(7), &rows, &mut out)?;
    assert_eq!(rt; out.into_inner().as_slice(), NONE_FROM_7);
    Ok(())
}

// Writes the certificate of `five_rows` on a writer that takes `writes` writes, and then fails or
// takes no byte. Returns the result, and what the writer took.
fn cut(
    alloc: Global,
    writes: usize,
    fails: bool,
) -> Result<(Result<(), CertFault>, Vec<u8>), Fail> {
    let found = five_rows(alloc)?;
    let mut out = Outlet::new(Failing::after(alloc, writes, fails));
    let result = write_cert(alloc, &found, &mut out);
    Ok((result, out.into_inner().taken))
}

// A certificate of 91 bytes, which takes 13 pieces, cut after each.
#[test]
fn a_write_failure_is_reported(rt: HostRuntime) -> Result<(), Fail> {
    for pieces in 0..15usize {
        for fails in [true, false] {
            let (result, bytes) = cut(rt.alloc(), pieces, fails)?;
            let most = pieces.saturating_mul(PIECE).min(FIVE.len());
            assert_eq!(rt; bytes.as_slice(), &FIVE[..most], "{pieces}");
            let want = if most < FIVE.len() {
                Err(CertFault::Write)
            } else {
                Ok(())
            };
            assert_eq!(rt; result, want, "{pieces}");
        }
    }
    Ok(())
}
