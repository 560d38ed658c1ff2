//! Calls that allocate: certificates are written, read and checked, and rows are copied.
use crate::fixtures::{FIVE, FOUR_EQUAL, FOUR_EQUAL_CASES, five_rows, inputs_of};
use rc_instr::Outlet;
use std::alloc::{AllocError, Global};
use std::test::Fail;
use tune_cert::{Reason, Row, Verdict, check, read_cert, write_cert};

#[test]
fn write_cert_writes_every_row(rt: HostRuntime) -> Result<(), Fail> {
    let found = five_rows(rt.alloc())?;
    let mut out = Outlet::new(Vec::with_capacity(rt.alloc(), 256)?);
    let written = write_cert(rt.alloc(), &found, &mut out);
    let bytes = out.into_inner();
    if written.is_err() {
        assert!(rt; bytes.is_empty());
    }
    written?;
    assert_eq!(rt; bytes.as_slice(), FIVE);
    Ok(())
}

#[test]
fn read_cert_reads_every_row(rt: HostRuntime) -> Result<(), Fail> {
    for case in &FOUR_EQUAL_CASES {
        let cert = read_cert(rt.alloc(), case.text)?;
        assert_eq!(rt; cert.count, 4, "{}", case.name);
        assert_eq!(rt; cert.rows.as_slice().len(), case.rows, "{}", case.name);
    }
    Ok(())
}

fn copies_of(alloc: Global, rows: &[Row]) -> Result<Vec<Row>, AllocError> {
    let mut copies = Vec::new(alloc);
    for row in rows {
        copies.push(row.copy(alloc)?)?;
    }
    Ok(copies)
}

#[test]
fn rows_are_copied(rt: HostRuntime) -> Result<(), Fail> {
    let rows = five_rows(rt.alloc())?.rows.into_vec();
    let copies = copies_of(rt.alloc(), rows.as_slice())?;
    match copies.as_slice() {
        [
            Row::Refused,
            Row::Cap(falling),
            Row::Cap(_),
            Row::Cap(_),
            Row::Same(of),
        ] => {
            assert_eq!(rt; falling.as_slice(), [(10, 0), (4, 3)].as_slice());
            assert_eq!(rt; *of, 4_294_967_295);
        }
        _ => assert!(rt; false, "the rows are of other kinds"),
    }
    Ok(())
}

// Checks a certificate of `FOUR_EQUAL`.
fn verdict_of(alloc: Global, cert: &[u8]) -> Result<Verdict, Fail> {
    let inputs = inputs_of(alloc, FOUR_EQUAL)?;
    Ok(check(alloc, &inputs, cert)?)
}

#[test]
fn check_gives_the_verdict(rt: HostRuntime) -> Result<(), Fail> {
    for case in &FOUR_EQUAL_CASES {
        assert_eq!(rt;
            verdict_of(rt.alloc(), case.text)?,
            case.verdict,
            "{}",
            case.name
        );
    }
    assert_eq!(rt;
        verdict_of(rt.alloc(), b"cwcert,7,4\n")?,
        Verdict::Rejected {
            row: 0,
            reason: Reason::Malformed
        }
    );
    Ok(())
}
