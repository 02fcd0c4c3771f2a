//! Arguments that don't form a request: usage errors and calls for help.
use super::cases::{Ending, Faults, ended, status_of};
use super::files::failing;
use command_line::{ArgumentsFault, Serve, read_request, read_serve};
use fixtures::{FaultPlan, Table, TableFault, bytes, cells, size, taken, writer};
use std::alloc::Global;
use std::net::SocketAddr;

// A command line, and the start of the text for the user.
const STARTS: Table = Table(
    r#"
extractd; error: 'extractd' requires a subcommand
extractd run; error:
extractd run --data d 01001; error:
extractd run --program p.bpf --data d; error:
extractd run --program p.bpf --data d --data d 01001; error:
extractd run --program p.bpf --data d --limit 1 01001; error:
extractd run --program p.bpf --data d 010010; error: CODE is five digits, and "010010" isn't
extractd run --program p.bpf --data d 0100a; error: CODE is five digits, and "0100a" isn't
extractd run --program p.bpf --data d 0100١; error: CODE is five digits, and "0100١" isn't
extractd run --program p.bpf --data d ''; error: CODE is five digits, and "" isn't
extractd run --program p.bpf --data d 010\n1; error: CODE is five digits, and "010\n1" isn't
extractd select --where TRUE --score C\tD --data d 01001; error: --score is a column with numbers, and "C\tD" isn't
extractd geocode --data d --number 1\r --name main 01001; error: --number is 1 to 11 digits, and "1\r" isn't
extractd geocode --data d --number 1 --name \x1b__________________________\x7f___ 01001;
  error: --name is 1 to 30 characters, and "\u{1b}                          \u{7f}   " isn't
extractd serve --data d --port 80\n 01001; error: --port is 1 to 65535, and "80\n" isn't
extractd verify --program p.bpf a\nb; error: unexpected argument 'a\nb' found
extractd verify --program p.bpf --a\x1b; error: unexpected argument '--a\u{1b}' found
extractd fr\nob; error: unrecognized subcommand 'fr\nob'
extractd select --where TRUE --data d; error:
extractd select --data d 01001; error:
extractd select --where TRUE --score CFCC --data d 01001; error: --score is a column with numbers, and "CFCC" isn't
extractd select --where TRUE --score FRLATT --data d 01001;
  error: --score is a column with numbers, and "FRLATT" isn't
extractd select --where TRUE --filter-lang cql2 --data d 01001;
  error: --filter-lang is cql2-text or cql2-json, and "cql2" isn't
extractd compile --filter f --filter-lang ''; error: --filter-lang is cql2-text or cql2-json, and "" isn't
extractd compile --filter f --filter-lang cql2-json --filter-lang cql2-json; error:
extractd select --where TRUE --data d --format json 01001; error: --format is rows, csv or geojsonseq, and "json" isn't
extractd run --program p.bpf --data d --format CSV 01001; error: --format is rows, csv or geojsonseq, and "CSV" isn't
extractd run --program p.bpf --data d --format '' 01001; error: --format is rows, csv or geojsonseq, and "" isn't
extractd run --program p.bpf --data d --format csv\n 01001; error: --format is rows, csv or geojsonseq, and "csv\n" isn't
extractd run --program p.bpf --data d --format csv --format csv 01001; error:
extractd run --program p.bpf --data d --columns TLID 01001; error: --columns needs --format csv or geojsonseq
extractd select --where TRUE --data d --format rows --columns TLID 01001; error: --columns needs --format csv or geojsonseq
extractd select --where TRUE --data d --geometry line 01001; error: --geometry needs --format csv or geojsonseq
extractd run --program p.bpf --data d --format rows --geometry none 01001; error: --geometry needs --format csv or geojsonseq
extractd run --program p.bpf --data d --format csv --geometry point 01001;
  error: --geometry is none, line or shape, and "point" isn't
extractd select --where TRUE --data d --format geojsonseq --geometry Line 01001;
  error: --geometry is none, line or shape, and "Line" isn't
extractd run --program p.bpf --data d --format csv --columns TLID,FRLATT 01001;
  error: --columns has "FRLATT", which isn't a column, and the nearest is FRLAT
extractd select --where TRUE --data d --format geojsonseq --columns TLID,_cfc 01001;
  error: --columns has " cfc", which isn't a column, and the nearest is CFCC
extractd run --program p.bpf --data d --format csv --columns TLID,Z\tP 01001;
  error: --columns has "Z\tP", which isn't a column
extractd run --program p.bpf --data d --format csv --columns TLID,CFCC,tlid 01001; error: --columns has "tlid" twice
extractd select --where TRUE --data d --format csv --columns '' 01001; error: --columns has an empty name
extractd run --program p.bpf --data d --format geojsonseq --columns TLID,,CFCC 01001; error: --columns has an empty name
extractd run --program p.bpf --data d --format csv --columns TLID, 01001; error: --columns has an empty name
extractd compile; error:
extractd compile f.cql; error:
extractd verify; error:
extractd verify --program; error:
extractd verify p.bpf; error:
extractd verify --source p.s; error:
extractd verify --program p.bpf --data d; error:
extractd verify --program p.bpf 01001; error:
extractd verify --program p.bpf --program p.bpf; error:
extractd explain; error:
extractd explain p.bpf; error:
extractd explain --lines l; error:
extractd explain --program p.bpf --lines l --lines l; error:
extractd asm; error:
extractd asm --source; error:
extractd asm p.s; error:
extractd asm --program p.bpf; error:
extractd asm --source p.s p.s; error:
extractd asm --source p.s --source p.s; error:
extractd dis; error:
extractd dis --program; error:
extractd dis p.bpf; error:
extractd dis --source p.s; error:
extractd dis --program p.bpf 01001; error:
extractd dis --program p.bpf --program p.bpf; error:
extractd trace --program p.bpf --data d --line 1 01001; error:
extractd trace --program p.bpf --data d --limit 1 01001; error:
extractd trace --program p.bpf --line 1 --limit 1 01001; error:
extractd trace --data d --line 1 --limit 1 01001; error:
extractd trace --program p.bpf --data d --line 1 --limit 1; error:
extractd trace --program p.bpf --data d --line 1 --limit 1 1001; error: CODE is five digits, and "1001" isn't
extractd trace --program p.bpf --data d --line '' --limit 1 01001; error: --line is 1 to 19 digits, and "" isn't
extractd trace --program p.bpf --data d --line 1a --limit 1 01001; error: --line is 1 to 19 digits, and "1a" isn't
extractd trace --program p.bpf --data d --line 1 --limit 10000000000000000000 01001;
  error: --limit is 1 to 19 digits, and "10000000000000000000" isn't
extractd trace --program p.bpf --data d --line 1 --limit -1 01001; error:
extractd geocode --data d --number 1 --name Main; error:
extractd geocode --data d --number 1 01001; error:
extractd geocode --data d --name Main 01001; error:
extractd geocode --number 1 --name Main 01001; error:
extractd geocode --data d --number 1 --number 1 --name Main 01001; error:
extractd geocode --data d --number 1 --name Main --program p.bpf 01001; error:
extractd geocode-batch --addresses a.csv --data d; error:
extractd geocode-batch --data d 01001; error:
extractd geocode-batch --addresses a.csv 01001; error:
extractd geocode-batch --addresses a.csv --addresses a.csv --data d 01001; error:
extractd geocode-batch --addresses a.csv --data d 1001; error: CODE is five digits, and "1001" isn't
extractd geocode-batch --addresses a.csv --data d --shape --shape 01001; error:
extractd geocode-batch --addresses a.csv --data d --shape=true 01001; error:
extractd geocode-batch --addresses a.csv --data d --shape; error: the following required arguments were not provided:
extractd geocode --data d --number 1 --name Main --shape 01001; error: unexpected argument '--shape' found
extractd serve --data d --port 8080; error: the following required arguments were not provided:
extractd serve --data d --any-port; error: the following required arguments were not provided:
extractd serve --data d --any-port --any-port 01001; error: the argument '--any-port' cannot be used multiple times
extractd serve --data d --any-port=80 01001; error:
extractd serve --data d --any-port --host ::1 --host ::1 01001; error:
extractd serve --data d --any-port --public=yes 01001; error:
extractd serve --data d --any-port --host 127.0.0.1\x1b 01001; error: --host is an IP address, and "127.0.0.1\u{1b}" isn't
extractd serve --help; Answers requests
extractd help; error:
extractd --help; Selects TIGER/Line street segments
extractd run --help; Writes the rows
extractd trace --help; Runs a program on one segment
extractd geocode --help; Finds a house number
extractd geocode-batch --help; Finds each address of a file
extractd select --help; Writes the rows of the street segments for which a filter is true
extractd compile --help; Writes the BPF program of a filter
extractd verify --help; Reports whether
extractd explain --help; Lists a program
extractd asm --help; Assembles
extractd dis --help; Disassembles
extractd geocode --data d --number '' --name main 01001; error: --number is 1 to 11 digits, and "" isn't
extractd geocode --data d --number 100000000151 --name main 01001;
  error: --number is 1 to 11 digits, and "100000000151" isn't
extractd geocode --data d --number 151a --name main 01001; error: --number is 1 to 11 digits, and "151a" isn't
extractd geocode --data d --number 151 --name main___________________________ 01001;
  error: --name is 1 to 30 characters, and "main                           " isn't
extractd geocode --data d --number 151 --name äääääääääääääääääääääääääääääää 01001;
  error: --name is 1 to 30 characters, and "äääääääääääääääääääääääääääääää" isn't
extractd geocode --data d --number 151 --name main --zip 000000360670 01001;
  error: --zip is 1 to 11 digits, and "000000360670" isn't
extractd geocode --data d --number 151 --name main --zip 3606x 01001; error: --zip is 1 to 11 digits, and "3606x" isn't
extractd geocode --data d --number 151 --name main 010010; error: CODE is five digits, and "010010" isn't
"#,
);

// A command line, and a part of the text for the user: the program's name in a usage line, its version, or an example of each command.
const PARTS: Table = Table(
    r#"
extractd --help; extractd serve --data tiger --port 8080 01001
extractd serve; Usage: extractd serve --data <DIR> <CODE>...
extractd serve --help; extractd serve --data tiger --any-port --host ::1 01001
extractd serve --help; The server has no TLS and no authentication
extractd geocode-batch --help; fedirp, fename, fetype, fedirs
extractd geocode-batch --help; extractd geocode-batch --addresses addresses.csv --data tiger 01001 > places.csv
extractd geocode-batch --help; extractd geocode-batch --addresses addresses.csv --data tiger --shape 01001 > places.csv
extractd geocode-batch --help; Places along the shapes of the segments, from the files of record type 2
extractd run; Usage: extractd run --program <FILE> --data <DIR> <CODE>
extractd trace; Usage: extractd trace --program <FILE> --data <DIR> --line <N> --limit <L> <CODE>
extractd select; Usage: extractd select --where <TEXT> --data <DIR> <CODE>...
extractd compile; Usage: extractd compile --filter <FILE>
extractd verify; Usage: extractd verify --program <FILE>
extractd explain; Usage: extractd explain --program <FILE>
extractd geocode; Usage: extractd geocode --data <DIR> --number <N> --name <TEXT> <CODE>...
extractd geocode-batch; Usage: extractd geocode-batch --addresses <FILE> --data <DIR> <CODE>...
extractd asm; Usage: extractd asm --source <FILE>
extractd dis; Usage: extractd dis --program <FILE>
extractd frob; Usage: extractd <COMMAND>
extractd --help; extractd run --program street.bpf --data tiger 01001 > rows.tsv
extractd --help; extractd trace --program street.bpf --data tiger --line 12 --limit 4096 01001
extractd --help; extractd geocode --data tiger --number 151 --name main --zip 36067 01001
extractd --help; extractd geocode-batch --addresses addresses.csv --data tiger 01001 > places.csv
extractd --help; extractd select --where "CFCC LIKE 'A4%' AND ZIPL = 36067" --data tiger 01001 > rows.tsv
extractd --help; extractd compile --filter street.cql2 > street.bpf
extractd --help; extractd verify --program street.bpf
extractd --help; extractd explain --program street.bpf
extractd --help; extractd asm --source street.s > street.bpf
extractd --help; extractd dis --program street.bpf
extractd --help; extractd 1.1.0
extractd --help; 4  out of memory
extractd run --help; extractd run --program street.bpf --data tiger 01001 > rows.tsv
extractd run --help; --format csv --columns TLID,FENAME --geometry none 01001 > names.csv
extractd select --help; --format geojsonseq 01001 | ogr2ogr roads.gpkg '/vsistdin?buffer_limit=-1' -nln roads
extractd select --help; none, line (the default), or shape
extractd trace --help; stuck place P cause N
extractd verify --help; extractd verify --program street.bpf
extractd asm --help; extractd asm --source street.s > street.bpf
extractd dis --help; extractd dis --program street.bpf
"#,
);

/// Returns whether the text for the user starts as the row says.
fn is_start(alloc: Global, row: &str) -> Result<bool, TableFault> {
    let (line, start) = texts(row)?;
    let ending = ended(alloc, None, line, &[], Faults::none())?;
    Ok(is_usage(&ending) && ending.expected().starts_with(start))
}

/// Returns whether the row's part is in the text for the user.
fn is_part(alloc: Global, row: &str) -> Result<bool, TableFault> {
    let (line, part) = texts(row)?;
    let ending = ended(alloc, None, line, &[], Faults::none())?;
    Ok(is_usage(&ending) && ending.expected().contains(part))
}

/// Returns a row's command line and its text, which isn't empty.
fn texts(row: &str) -> Result<(&str, &str), TableFault> {
    let (line, text) = cells(row)?.two()?;
    if text.is_empty() {
        return Err(TableFault::Cells);
    }
    Ok((line, text))
}

/// Returns whether the status is 2, and nothing is written or opened, since the arguments are read first.
fn is_usage(ending: &Ending) -> bool {
    ending.is_with(2, b"") && ending.opened.is_empty()
}

#[test]
fn usage(rt: HostRuntime) {
    for row in STARTS.joined(rt.alloc()).expect(&rt, "starts").lines() {
        assert_eq!(rt; is_start(rt.alloc(), row), Ok(true), "{row}");
    }
    for row in PARTS.joined(rt.alloc()).expect(&rt, "parts").lines() {
        assert_eq!(rt; is_part(rt.alloc(), row), Ok(true), "{row}");
    }
}

// The arguments of `serve`, the requested address and the number of counties.
const SERVES: Table = Table(
    "\
serve --data d --port 8080 01001; 127.0.0.1:8080; 1
serve --data d --port 1 01001 01003 01001; 127.0.0.1:1; 3
serve --port 65535 01001 01003 --data d; 127.0.0.1:65535; 2
serve --data d --any-port 01001; 127.0.0.1:0; 1
serve --data d --any-port --host ::1 01001; [::1]:0; 1
serve --data d --port 80 --host=0:0:0:0:0:0:0:1 01001; [::1]:80; 1
serve --data d --port 80 --host 127.0.0.0 01001; 127.0.0.0:80; 1
serve --data d --port 80 --host 127.255.255.255 01001; 127.255.255.255:80; 1
serve --data d --port 80 --public 01001; 127.0.0.1:80; 1
serve --data d --port 80 --public --host ::1 01001; [::1]:80; 1
serve --data d --port 80 --host 0.0.0.0 01001 --public; 0.0.0.0:80; 1
serve --data d --any-port --host :: --public 01001; [::]:0; 1
serve --data d --port 80 --public --host 2001:db8::c000:201 01001; [2001:db8::c000:201]:80; 1",
);

// Other arguments, and the status and text of the fault.
const FAULTS: Table = Table(
    r#"
serve --data d --port 0 01001; 2; error: --port is 1 to 65535, and "0" isn't\n
serve --data d --port 65536 01001; 2; error: --port is 1 to 65535, and "65536" isn't\n
serve --data d --port +80 01001; 2; error: --port is 1 to 65535, and "+80" isn't\n
serve --data d --port http 01001; 2; error: --port is 1 to 65535, and "http" isn't\n
serve --data d --port 8080 0100; 2; error: CODE is five digits, and "0100" isn't\n
serve --data d 01001; 2; error: --port or --any-port is missing\n
serve --data d --public 01001; 2; error: --port or --any-port is missing\n
serve --data d --port 80 --any-port 01001; 2; error: --port and --any-port can't be used together\n
serve --data d --port 0 --any-port 01001; 2; error: --port and --any-port can't be used together\n
serve --data d --any-port --host localhost 01001; 2; error: --host is an IP address, and "localhost" isn't\n
serve --data d --any-port --host= 01001; 2; error: --host is an IP address, and "" isn't\n
serve --data d --any-port --host 127.1 01001; 2; error: --host is an IP address, and "127.1" isn't\n
serve --data d --any-port --host 127.0.0.1:80 01001; 2; error: --host is an IP address, and "127.0.0.1:80" isn't\n
serve --data d --any-port --public --host [::1] 01001; 2; error: --host is an IP address, and "[::1]" isn't\n
serve --data d --any-port --host 0.0.0.0 01001; 2; error: --host 0.0.0.0 needs --public, which lets other machines connect\n
serve --data d --any-port --host :: 01001; 2; error: --host :: needs --public, which lets other machines connect\n
serve --data d --any-port --host ::2 01001; 2; error: --host ::2 needs --public, which lets other machines connect\n
serve --data d --any-port --host 192.0.2.1 01001; 2; error: --host 192.0.2.1 needs --public, which lets other machines connect\n
serve --data d --any-port --host 126.255.255.255 01001; 2;
  error: --host 126.255.255.255 needs --public, which lets other machines connect\n
serve --data d --any-port --host 128.0.0.0 01001; 2; error: --host 128.0.0.0 needs --public, which lets other machines connect\n
serve --data d --any-port --host ::ffff:127.0.0.1 01001; 2;
  error: --host ::ffff:127.0.0.1 needs --public, which lets other machines connect\n
run --program p --data d --format json 01001; 2; error: --format is rows, csv or geojsonseq, and "json" isn't\n
run --program p --data d --columns CFCC 01001; 2; error: --columns needs --format csv or geojsonseq\n
run --program p --data d --format csv --columns CFC 01001; 2;
  error: --columns has "CFC", which isn't a column, and the nearest is CFCC\n
run --program p --data d --format csv --columns CFCC,cfcc 01001; 2; error: --columns has "cfcc" twice\n
run --program p --data d --format csv --columns CFCC, 01001; 2; error: --columns has an empty name\n
run --program p --data d --format csv --geometry wkt 01001; 2; error: --geometry is none, line or shape, and "wkt" isn't\n
"#,
);

// The ways in which standard error fails.
const WAYS: Table = Table(
    "\
pipe
interrupted
full
nothing
by 1 pipe
by 1 interrupted
by 1 nothing",
);

/// Returns whether the arguments of a row request what the row says.
fn is_serve(alloc: Global, row: &str) -> Result<bool, TableFault> {
    let (line, address, counties) = cells(row)?.three()?;
    let (address, counties) = (socket_address(address)?, size(counties)?);
    let words: Vec<&str> = line.split(' ').collect(alloc)?;
    Ok(match read_serve(alloc, &words) {
        Ok(serve) => is_asked(&serve, address, counties),
        Err(_fault) => false,
    })
}

fn socket_address(text: &str) -> Result<SocketAddr, TableFault> {
    text.parse().map_err(|_error| TableFault::Word)
}

fn is_asked(serve: &Serve<'_>, address: SocketAddr, counties: usize) -> bool {
    serve.data == "d" && serve.address == address && serve.codes.len() == counties
}

/// Returns whether the arguments of a row have the fault that the row says.
fn is_fault(alloc: Global, row: &str) -> Result<bool, TableFault> {
    let (line, status, text) = cells(row)?.three()?;
    let status = status_of(status)?;
    let text = bytes(alloc, text)?;
    let words: Vec<&str> = line.split(' ').collect(alloc)?;
    match fault_of(alloc, &words) {
        Some(fault) => Ok(fault.status() == status && is_expected(alloc, &fault, &text)?),
        None => Ok(false),
    }
}

/// Returns the fault in the arguments of `serve` or of another command, if they have one.
fn fault_of<'a>(alloc: Global, words: &'a [&'a str]) -> Option<ArgumentsFault<'a>> {
    match words {
        ["serve", ..] => read_serve(alloc, words).err(),
        _ => read_request(alloc, words).err(),
    }
}

/// Returns whether a fault's text is written up to the point at which standard error fails.
fn is_expected(alloc: Global, fault: &ArgumentsFault<'_>, text: &[u8]) -> Result<bool, TableFault> {
    let ways = WAYS.joined(alloc)?;
    for method in ways.lines() {
        if !is_cut(alloc, fault, text, failing(method)?) {
            return Ok(false);
        }
    }
    Ok(true)
}

/// Returns whether a fault's text is written up to each point at which standard error fails in this way.
fn is_cut(alloc: Global, fault: &ArgumentsFault<'_>, text: &[u8], method: FaultPlan) -> bool {
    for count in 0..=text.len() {
        let mut errors = writer(alloc, method.after(count));
        fault.report(&mut errors);
        if text.get(..count) != Some(taken(&errors)) {
            return false;
        }
    }
    true
}

#[test]
fn serves(rt: HostRuntime) {
    for row in SERVES.joined(rt.alloc()).expect(&rt, "serves").lines() {
        assert_eq!(rt; is_serve(rt.alloc(), row), Ok(true), "{row}");
    }
    for row in FAULTS.joined(rt.alloc()).expect(&rt, "faults").lines() {
        assert_eq!(rt; is_fault(rt.alloc(), row), Ok(true), "{row}");
    }
}
