//! Files of addresses whose contents were worked out by hand.
use addresses::{
    Address, AddressFault, AddressFaultKind, AddressRow, Addresses, MAX_RECORD_LENGTH,
};
use fixtures::{Table, TableFault, bytes, cells};
use refusals::Fault;
use std::alloc::{AllocError, Global};
use std::test::Fail;

// A file, and what is read from it: each address as its line, its id in brackets if there is such a column, and the other cells in order, then the
// end or the refusal.
const FILES: Table = Table(
    r#"
number,name\n1,A; 2 1/A////. end
number,name\n1,A\n2,B\n; 2 1/A////. 3 2/B////. end
\x20Number ,"\tNAME"\n1,A; 2 1/A////. end
name,number,id\nA,1,x; 2 [x] 1/A////. end
NUMBER,name,Number,Zip,zip,ID,id\n1,A,2,3,4,5,6; 2 [5] 1/A/3///. end
id,number,name,zip,predir,type,sufdir,extra\n7,1,A,14850,N,St,W,zz; 2 [7] 1/A/14850/N/St/W. end
sufdir,type,predir,zip,name,number\nW,St,N,14850,A,1; 2 1/A/14850/N/St/W. end
number,name\n1,"A, B"; 2 1/A, B////. end
number,name\n1,"A ""B"""\n"2",C; 2 1/A "B"////. 3 2/C////. end
number,name\n1,"A\nB"\n2,C; 2 1/A\nB////. 4 2/C////. end
number,name,"x\ny"\n1,A; 3 1/A////. end
number,name\r\n1,"A\r\nB"\r\n2,C\r\n; 2 1/A\r\nB////. 4 2/C////. end
\xef\xbb\xbfnumber,name\n1,A; 2 1/A////. end
\xef\xbb\xbf"number",name\n1,A; 2 1/A////. end
number,name\n\xef\xbb\xbf1,A; 2 \xef\xbb\xbf1/A////. end
\xef\xbb\xbf\xef\xbb\xbfnumber,name\n1,A; refused 101 line 1 NoColumn
\nnumber,name\n\n1,A\n\r\n2,B\n; 4 1/A////. 6 2/B////. end
number,name\n,\n \n; 2 /////. 3 /////. end
id,number,name\n5\n6,7; 2 [5] /////. 3 [6] 7/////. end
number,name,id\n5; 2 [] 5/////. end
number,name\n1,A,x,y; 2 1/A////. end
id,number,name,zip\n a ," 1\t", B  C , \t; 2 [ a ] 1/B  C////. end
number,name\n1,Ñandú; 2 1/Ñandú////. end
\x20number ,name; end
\n; refused 100 NoHeader
\xef\xbb\xbf; refused 100 NoHeader
\r\n; refused 100 NoHeader
number,nam\n1,A; refused 101 line 1 NoColumn
\n\nid,name\n1; refused 101 line 3 NoColumn
number,name\n1,A\n2,\xff; 2 1/A////. refused 102 line 3 NotUtf8
number,name,\xff\n1,A; refused 102 line 1 NotUtf8
number,name\n1,"A\n2,B; refused 103 line 2 OpenQuote
number,name\n1,"A\nB"\n2,B"; 2 1/A\nB////. refused 103 line 4 OpenQuote
number,"name; refused 103 line 1 OpenQuote
number,name\n1,A\r2,B\n; refused 105 line 2 NotOneRecord
number,name\n1,A"b\nc"d\n; refused 105 line 2 NotOneRecord
number,name\r1,A; refused 105 line 1 NotOneRecord
number,name\n1,\xff\r2,"B; refused 103 line 2 OpenQuote
number,name\n1,\xff\r2,B; refused 102 line 2 NotUtf8
number,name\n1,A\r2,\xff; refused 105 line 2 NotOneRecord
number,name\n1,A""\n2,"B"\n"3","C,"\n; 2 1/A""////. 3 2/B////. 4 3/C,////. end
number,name\n1,"A"b\n2,"""B"""\n3,C; 2 1/Ab////. 3 2/"B"////. 4 3/C////. end
number,name\n1,A",",B\n2,C\n"3",D\r\n; 2 1/A"////. 3 2/C////. 4 3/D////. end
number,name\n1,A\r\r\n\r2,B\n3,C\n; 2 1/A////. 3 2/B////. 4 3/C////. end
number,name\r\n\n1,""\r\n\r\n2,"B\r\n"\r\n\n,C\n; 3 1/////. 5 2/B////. 8 /C////. end
"#,
);

/// Returns an address as it is in a row.
fn written(alloc: Global, address: Address<'_>) -> Result<String, AllocError> {
    let Address {
        line,
        id,
        number,
        name,
        zip,
        predir,
        kind,
        sufdir,
    } = address;
    let id = match id {
        Some(id) => format!(in alloc; "[{id}] ")?,
        None => String::new(alloc),
    };
    format!(in alloc; "{line} {id}{number}/{name}/{zip}/{predir}/{kind}/{sufdir}. ")
}

/// Returns what is read from a file.
fn outcome(alloc: Global, file: &[u8]) -> Result<String, AllocError> {
    let mut text = String::new(alloc);
    let mut row = AddressRow::new(alloc);
    let mut addresses = match Addresses::of(alloc, file) {
        Ok(addresses) => addresses,
        Err(fault) => {
            text.push_str(fault.line().as_str())?;
            return Ok(text);
        }
    };
    for _ in 0..100 {
        match addresses.read(&mut row) {
            Ok(true) => text.push_str(written(alloc, row.address())?.as_str())?,
            Ok(false) => {
                text.push_str("end")?;
                return Ok(text);
            }
            Err(fault) => {
                text.push_str(fault.line().as_str())?;
                return Ok(text);
            }
        }
    }
    Ok(text)
}

/// Returns whether a file is read as its row says.
fn is_read(alloc: Global, row: &str) -> Result<bool, TableFault> {
    let (file, read) = cells(row)?.two()?;
    let (file, read) = (bytes(alloc, file)?, bytes(alloc, read)?);
    Ok(outcome(alloc, &file)?.as_bytes() == read.as_slice())
}

#[test]
fn files(rt: HostRuntime) {
    for row in FILES.joined(rt.alloc()).expect(&rt, "files").lines() {
        assert_eq!(rt; is_read(rt.alloc(), row), Ok(true), "{row}");
    }
}

/// Returns a file with a record of this many bytes, including its line end.
fn with_record(alloc: Global, length: usize) -> Result<Vec<u8>, AllocError> {
    let mut file = Vec::new(alloc);
    file.extend_from_slice(b"number,name\n1,A\n2,")?;
    for _ in 3..length {
        file.push(b'x')?;
    }
    file.push(b'\n')?;
    Ok(file)
}

#[test]
fn longest_record(rt: HostRuntime) -> Result<(), Fail> {
    let file = with_record(rt.alloc(), MAX_RECORD_LENGTH)?;
    let mut addresses = Addresses::of(rt.alloc(), &file)?;
    let mut row = AddressRow::new(rt.alloc());
    assert!(rt; addresses.read(&mut row)?);
    assert!(rt; addresses.read(&mut row)?);
    assert!(rt; row.address().name.len() == 65_533);
    assert!(rt; !addresses.read(&mut row)?);
    let file = with_record(rt.alloc(), MAX_RECORD_LENGTH + 1)?;
    let mut addresses = Addresses::of(rt.alloc(), &file)?;
    assert!(rt; addresses.read(&mut row)?);
    let fault = AddressFault::At {
        line: 3,
        flaw: AddressFaultKind::LineTooLong,
    };
    assert!(rt; addresses.read(&mut row).err() == Some(fault));
    assert!(rt; addresses.read(&mut row).err() == Some(fault));
    assert!(rt; fault.line().as_str() == "refused 104 line 3 LineTooLong");
    Ok(())
}
