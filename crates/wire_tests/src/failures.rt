//! Requests that are cut short, readers and writers that fail, and allocations that fail.
use crate::filter_routes;
use crate::tables::wrong_in;
use crate::trials::Trial;
use fixtures::Table;
use std::test::Fail;

// A program to verify. The request has 61 bytes, and the reply 92.
const VERIFY: Table = Table(
    r"{rt1}\n
POST /verify HTTP/1.1\r\nContent-Length: 16\r\n\r\n{every} => =200 OK; text/plain; 9; accepted\n",
);

// A script in which each request is decided only by its last byte.
const REQUESTS: Table = Table(
    r"{rt1\n*2}
POST /verify HTTP/1.1 >> {stuck} => 422 refused 40 place 0 ReadsNothing(0)
POST /assemble HTTP/1.1 >> mov r0, 1\nexit\n => 200 octets {every}
POST /assemble HTTP/1.1 >> \xff => 400
POST /disassemble HTTP/1.1 >> {every} => 200 text mov r0, 1\nexit\n
POST /extract HTTP/1.1 >> {every} => 200 octets {0\trt1\n*2}
GET /geocode?number=151&name=main{end}
  => 200 text 123456789\tL\t-86494898\t32405102\n123456789\tL\t-86494898\t32405102\n
GET /geocode{end} => 400
POST /jobs HTTP/1.1 >> {every} => 200 text 1\n
GET /jobs/1{end} => 200 octets 0 2\n
POST /jobs HTTP/1.1 >> => 422 refused 10 Empty
turn => 2 2
POST /jobs HTTP/1.1 >> {two} => 200 text 2\n
GET /open-jobs{end} => 200 text 1 2 2\n2 0 2\n
GET /jobs/1{end} => 200 octets 2 2\n{0\trt1\n*2}
DELETE /jobs/1{end} => 200 text dropped\n
GET /jobs/1{end} => 404
GET /jobs/2{end} => 200 octets 0 2\n
turn => 2 2
turn => none
POST /nothing HTTP/1.1\r\nContent-Length: 5\r\n\r\n => 404
PUT /jobs/2 HTTP/1.1\r\nContent-Length: 5\r\n\r\n => 405 GET, DELETE
POST /jobs HTTP/1.1\r\nTransfer-Encoding: chunked\r\n\r\n => 411
POST /jobs HTTP/1.1\r\nContent-Length: 16\r\nContent-Length: 16\r\n\r\n => 400
POST /jobs HTTP/1.1\r\nContent-Length: 1048577\r\n\r\n => 413",
);

// Requests that are decided before their body, or what should be a head, is complete. A head is refused at the first byte that no head can have
// there.
const DECIDED: Table = Table(
    r"-
GET /x HTTP/2 => 400
GET /x HTTP/1.1x => 400
GET /x HTTP/1.1\rx => 400
GET /x HTTP/1.1\r\nA: b\rx => 400
GET /x HTTP/1.1\r\nA x => 400
\rx => 400
GET /\x7f => 400
GET /x HTTP/1.1\r\n{text A:\r\n*65} => 400
{text \n*8192} => 400
{text A*8192} => 400
POST /verify HTTP/1.1\r\nContent-Length: 16\r\nX: {text a*8146} => 400
POST /verify HTTP/1.1\r\nContent-Length: 5000000\r\n\r\n => 413
POST /verify HTTP/1.1\r\nContent-Length: 16\r\nTransfer-Encoding: chunked\r\n\r\n => 411
POST /verify HTTP/1.1\r\nContent-Length: 16x\r\n\r\n => 400
POST /verify HTTP/1.1\r\nContent-Length: 0\r\n\r\n => 422 refused 10 Empty
POST /verify/ HTTP/1.1\r\nContent-Length: 16\r\n\r\n => 404
PATCH /verify HTTP/1.1\r\nContent-Length: 16\r\n\r\n => 405 POST
GET /jobs/1 HTTP/1.1\r\nContent-Length: 16\r\n\r\n => 404
DELETE /jobs/1 HTTP/1.1\r\nContent-Length: 16\r\n\r\n => 404",
);

// Longer replies, in two writes.
const REPLIES: Table = Table(
    r"{rt1\n*6}
POST /extract HTTP/1.1 >> {every} => 200 octets {0\trt1\n*6}
POST /jobs HTTP/1.1 >> {scored} => 200 text 1\n
turn => 6 6
GET /jobs/1{end} => 200 octets 6 6\n{18446744073709551615\trt1\n*6}",
);

// Requests that end early, and failing reads, when each read takes one byte: what ends or fails, the maximum number of bytes per call, and how.
const TRIALS: Table = Table(
    "\
end; all; none
end; 1; none
read; 1; pipe
read; 1; interrupted
read; 1; blocked
read; 1; late",
);

// The trial of requests that are decided early.
const EARLY: Table = Table("read; 1; pipe");

// Ways in which writes fail, including replies written byte by byte.
const WRITES: Table = Table(
    "\
write; all; pipe
write; all; interrupted
write; all; blocked
write; all; late
write; all; nothing
write; 1; pipe
write; 1; interrupted
write; 1; nothing",
);

// Scripts, separated by empty lines: the counties, then requests and turns, each with its result if no allocation fails. Rows marked `+` allocate,
// and rows marked `-` don't.
const GROWTHS: Table = Table(
    r"{rt1\n*2}
+ POST /verify HTTP/1.1 >> {every} => 200 text accepted\n
+ POST /verify HTTP/1.1 >> {roads} => 200 text accepted\n
+ POST /verify HTTP/1.1 >> {pointer} => 422 refused 51 place 1 ExitNotNumber
+ POST /verify HTTP/1.1 >> {every*100} => 200 text accepted\n
+ POST /assemble HTTP/1.1 >> mov r0, 1\nja out\nout:\nexit\n => 200 octets {asm mov r0, 1 | ja +0 | exit}
+ POST /assemble HTTP/1.1 >> move r0, 1 => 422 refused 21 line 1 UnknownMnemonic
+ POST /assemble HTTP/1.1 >> \xff => 400
+ POST /disassemble HTTP/1.1 >> {every} => 200 text mov r0, 1\nexit\n
+ POST /disassemble HTTP/1.1 >> {unknown} => 422 refused 13 place 0 UnknownOpcode
+ POST /extract HTTP/1.1 >> {every} => 200 octets {0\trt1\n*2}
+ POST /extract HTTP/1.1 >> {roads} => 200 octets {0\trt1\n*2}
+ GET /geocode?number=%3151&n%61me=ma%69n&zip=36067{end}
  => 200 text 123456789\tL\t-86494898\t32405102\n123456789\tL\t-86494898\t32405102\n
+ GET /geocode?number=151&name=main{end}
  => 200 text 123456789\tL\t-86494898\t32405102\n123456789\tL\t-86494898\t32405102\n
+ GET /geocode?number=%78&name=main{end} => 400
- GET /geocode{end} => 400
+ POST /jobs HTTP/1.1 >> {every} => 200 text 1\n
+ POST /jobs HTTP/1.1 >> {stuck} => 422 refused 40 place 0 ReadsNothing(0)
+ POST /jobs HTTP/1.1 >> {roads} => 200 text 2\n
+ turn => 2 2
- GET /jobs/1{end} => 200 octets 2 2\n{0\trt1\n*2}
- GET /jobs/2{end} => 200 octets 0 2\n
- DELETE /jobs/1{end} => 200 text dropped\n
- GET /jobs/1{end} => 404
- DELETE /jobs/1{end} => 404
+ POST /jobs HTTP/1.1 >> {two} => 200 text 3\n
+ turn => 2 2
+ turn => 2 2
- turn => none
- GET /jobs/2{end} => 200 octets 2 2\n{0\trt1\n*2}
+ POST /verify HTTP/1.1\r\nContent-Length: 17\r\n\r\n{every} => 400
- POST /verify HTTP/1.1\r\nContent-Length: 1048576\r\n\r\n => 400
- PUT /verify{end} => 405 POST
- POST /verify{end} => 411
- POST /verify HTTP/1.1\r\nContent-Length: 1048577\r\n\r\n => 413

{rt1\n*300}
+ POST /extract HTTP/1.1 >> {every} => 200 octets {0\trt1\n*300}
+ POST /jobs HTTP/1.1 >> {every} => 200 text 1\n
+ turn => 256 300
- GET /jobs/1{end} => 200 octets 256 300\n{0\trt1\n*256}
+ turn => 300 300
- GET /jobs/1{end} => 200 octets 300 300\n{0\trt1\n*300}",
);

#[test]
fn requests_that_stop(rt: HostRuntime) -> Result<(), Fail> {
    for (script, trials, passes, step) in [
        (VERIFY, TRIALS, 1, 0),
        (REQUESTS, TRIALS, 1, 0),
        (DECIDED, EARLY, 2, usize::MAX),
    ] {
        for row in trials.joined(rt.alloc())?.lines() {
            let trial = Trial::new(row).expect(&rt, row);
            assert_eq!(rt;
                wrong_in(rt.alloc(), script, trial, passes, step),
                Ok(None),
                "{row}"
            );
        }
    }
    Ok(())
}

#[test]
fn replies_that_stop(rt: HostRuntime) -> Result<(), Fail> {
    for (script, passes, step) in [(VERIFY, 1, 0), (REQUESTS, 60, 3), (REPLIES, 12, 97)] {
        for row in WRITES.joined(rt.alloc())?.lines() {
            let trial = Trial::new(row).expect(&rt, row);
            assert_eq!(rt;
                wrong_in(rt.alloc(), script, trial, passes, step),
                Ok(None),
                "{row}"
            );
        }
    }
    Ok(())
}

#[test]
fn each_growth(rt: HostRuntime) {
    for scripts in [GROWTHS, filter_routes::GROWTHS] {
        assert_eq!(rt;
            wrong_in(rt.alloc(), scripts, Trial::Growths, 1, 1),
            Ok(None)
        );
    }
}
