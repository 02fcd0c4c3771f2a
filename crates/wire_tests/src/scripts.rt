//! Sequences of requests and turns.
use fixtures::Table;

// Scripts, separated by empty lines: the counties, then requests and turns, each with its result.
//
// The first script has valid and invalid ids. The others have jobs at the same time over two counties, and jobs over no segments.
pub const SCRIPTS: Table = Table(
    r"{rt1\n*2}
turn => none
GET /jobs/1{end} => 404
DELETE /jobs/1{end} => 404
POST /jobs HTTP/1.1 >> {every} => 200 text 1\n
GET /jobs/1{end} => =200 OK; application/octet-stream; 4; 0 2\n
GET /jobs/1{end} => 200 octets 0 2\n
GET /jobs/1{end} => 200 octets 0 2\n
turn => 2 2
GET /jobs/1{end} => 200 octets 2 2\n{0\trt1\n*2}
GET /jobs/01{end} => 200 octets 2 2\n{0\trt1\n*2}
GET /jobs/1?x=y{end} => 200 octets 2 2\n{0\trt1\n*2}
GET /jobs/00000000000000000001{end} => 200 octets 2 2\n{0\trt1\n*2}
GET /jobs/000000000000000000001{end} => 404
GET /jobs/0{end} => 404
GET /jobs/00{end} => 404
GET /jobs/2{end} => 404
GET /jobs/10{end} => 404
GET /jobs/18446744073709551615{end} => 404
GET /jobs/18446744073709551616{end} => 404
GET /jobs/18446744073709551617{end} => 404
GET /jobs/36893488147419103233{end} => 404
GET /jobs/99999999999999999999{end} => 404
GET /jobs/340282366920938463463374607431768211457{end} => 404
GET /jobs/x{end} => 404
GET /jobs/1x{end} => 404
GET /jobs/x1{end} => 404
GET /jobs/+1{end} => 404
GET /jobs/-1{end} => 404
GET /jobs/1.0{end} => 404
GET /jobs/0x1{end} => 404
GET /jobs/1_{end} => 404
GET /jobs/1%20{end} => 404
GET /jobs/%31{end} => 404
GET /jobs/\xd9\xa1{end} => 404
DELETE /jobs/000000000000000000001{end} => 404
DELETE /jobs/0{end} => 404
DELETE /jobs/18446744073709551617{end} => 404
DELETE /jobs/x{end} => 404
DELETE /jobs/+1{end} => 404
DELETE /jobs/-1{end} => 404
DELETE /jobs/%31{end} => 404
PUT /jobs/1{end} => 405 GET, DELETE
PUT /jobs/18446744073709551617{end} => 405 GET, DELETE
POST /jobs HTTP/1.1 >> {stuck} => 422 refused 40 place 0 ReadsNothing(0)
POST /jobs HTTP/1.1 >> => 422 refused 10 Empty
POST /jobs HTTP/1.1 >> {backward} => 422 refused 30 place 1 BackwardJump
POST /jobs HTTP/1.1 >> {unknown} => 422 refused 13 place 0 UnknownOpcode
POST /jobs HTTP/1.1\r\n\r\n{every} => 411
GET /jobs/2{end} => 404
POST /jobs HTTP/1.1 >> {scored} => 200 text 2\n
GET /jobs/2{end} => 200 octets 0 2\n
GET /jobs/1{end} => 200 octets 2 2\n{0\trt1\n*2}
DELETE /jobs/1{end} => 200 text dropped\n
GET /jobs/1{end} => 404
DELETE /jobs/1{end} => 404
GET /jobs/01{end} => 404
PUT /jobs/1{end} => 405 GET, DELETE
GET /jobs/2{end} => 200 octets 0 2\n
turn => 2 2
GET /jobs/2{end} => 200 octets 2 2\n{18446744073709551615\trt1\n*2}
POST /jobs HTTP/1.1 >> {every} => 200 text 3\n
DELETE /jobs/02 HTTP/1.1\r\nContent-Length: x\r\nTransfer-Encoding: chunked\r\n\r\n => 200 text dropped\n
GET /jobs/2{end} => 404
GET /jobs/3{end} => 200 octets 0 2\n

{rt1}\n | {rt1\n*0} | {rt1 CFCC=H01}\n{rt1}\n
POST /jobs HTTP/1.1 >> {roads} => 200 text 1\n
POST /jobs HTTP/1.1 >> {never} => 200 text 2\n
POST /jobs HTTP/1.1 >> {every} => 200 text 3\n
turn => 3 3
GET /jobs/1{end} => 200 octets 3 3\n{0\trt1\n*2}
GET /jobs/2{end} => 200 octets 0 3\n
turn => 3 3
GET /jobs/2{end} => 200 octets 3 3\n
DELETE /jobs/3{end} => 200 text dropped\n
turn => none
POST /jobs HTTP/1.1 >> {scored} => 200 text 4\n
turn => 3 3
GET /jobs/4{end}
  => 200 octets 3 3\n18446744073709551615\t{rt1}\n18446744073709551615\t{rt1 CFCC=H01}\n18446744073709551615\t{rt1}\n
GET /jobs/3{end} => 404
GET /jobs/1{end} => 200 octets 3 3\n{0\trt1\n*2}

-
POST /jobs HTTP/1.1 >> {every} => 200 text 1\n
turn => none
GET /jobs/1{end} => 200 octets 0 0\n
POST /jobs HTTP/1.1 >> {stuck} => 422 refused 40 place 0 ReadsNothing(0)
POST /jobs HTTP/1.1 >> {every} => 200 text 2\n
DELETE /jobs/1{end} => 200 text dropped\n
GET /jobs/1{end} => 404
GET /jobs/2{end} => 200 octets 0 0\n
turn => none",
);

// Two jobs at the same time over 600 segments, with a refused program between them.
pub const TURNS: Table = Table(
    r"{rt1\n*600}
POST /jobs HTTP/1.1 >> {every} => 200 text 1\n
GET /jobs/1{end} => 200 octets 0 600\n
GET /jobs/1{end} => 200 octets 0 600\n
turn => 256 600
GET /jobs/1{end} => =200 OK; application/octet-stream; 59144; 256 600\n{0\trt1\n*256}
GET /jobs/01{end} => 200 octets 256 600\n{0\trt1\n*256}
POST /jobs HTTP/1.1 >> {stuck} => 422 refused 40 place 0 ReadsNothing(0)
POST /jobs HTTP/1.1 >> {scored} => 200 text 2\n
turn => 256 600
GET /jobs/1{end} => 200 octets 256 600\n{0\trt1\n*256}
GET /jobs/2{end} => 200 octets 256 600\n{18446744073709551615\trt1\n*256}
turn => 512 600
GET /jobs/1{end} => 200 octets 512 600\n{0\trt1\n*512}
turn => 512 600
turn => 600 600
GET /jobs/1{end} => 200 octets 600 600\n{0\trt1\n*600}
DELETE /jobs/1{end} => 200 text dropped\n
GET /jobs/1{end} => 404
GET /jobs/2{end} => 200 octets 512 600\n{18446744073709551615\trt1\n*512}
turn => 600 600
turn => none
GET /jobs/2{end} => 200 octets 600 600\n{18446744073709551615\trt1\n*600}
POST /extract HTTP/1.1 >> {every} => 200 octets {0\trt1\n*600}",
);

// A job with more than a mebibyte of rows.
pub const ROWS: Table = Table(
    r"{rt1\n*4608}
POST /jobs HTTP/1.1 >> {every} => 200 text 1\n
turn => 256 4608
turn => 512 4608
turn => 768 4608
turn => 1024 4608
turn => 1280 4608
turn => 1536 4608
turn => 1792 4608
turn => 2048 4608
turn => 2304 4608
turn => 2560 4608
turn => 2816 4608
turn => 3072 4608
turn => 3328 4608
turn => 3584 4608
turn => 3840 4608
turn => 4096 4608
turn => 4352 4608
turn => 4608 4608
turn => none
GET /jobs/1{end} => 200 octets 4608 4608\n{0\trt1\n*4608}
POST /extract HTTP/1.1 >> {every} => 200 octets {0\trt1\n*4608}",
);

// A program of the greatest length in words.
pub const LONG: Table = Table(
    r"{rt1\n*2}
POST /jobs HTTP/1.1 >> {asm mov r0, 1 *65535 | exit} => 200 text 1\n
turn => 2 2
GET /jobs/1{end} => 200 octets 2 2\n{0\trt1\n*2}",
);

// Requests while the greatest number of jobs is open: the body is checked before that limit, and the program after it.
pub const FULL: Table = Table(
    r"{rt1}\n
jobs => 64
POST /jobs HTTP/1.1 >> {every} => 503 refused 70 Full
POST /jobs HTTP/1.1 >> {stuck} => 503 refused 70 Full
POST /jobs HTTP/1.1 >> {every*32768}{stuck} => 503 refused 70 Full
POST /jobs HTTP/1.1\r\n\r\n{stuck} => 411
POST /jobs HTTP/1.1\r\nTransfer-Encoding: chunked\r\nContent-Length: 8\r\n\r\n{stuck} => 411
POST /jobs HTTP/1.1\r\nContent-Length: 9\r\n\r\n{stuck} => 400
POST /jobs HTTP/1.1\r\nContent-Length: 8\r\nContent-Length: 8\r\n\r\n{stuck} => 400
POST /jobs HTTP/1.1\r\nContent-Length: 1048577\r\n\r\n => 413
GET /jobs{end} => 405 POST
POST /verify HTTP/1.1 >> {stuck} => 422 refused 40 place 0 ReadsNothing(0)
POST /verify HTTP/1.1 >> {every} => 200 text accepted\n
GET /jobs/64{end} => 200 octets 0 1\n
GET /jobs/65{end} => 404
DELETE /jobs/65{end} => 404
POST /jobs HTTP/1.1 >> {stuck} => 503 refused 70 Full
DELETE /jobs/17{end} => 200 text dropped\n
POST /jobs HTTP/1.1 >> {stuck} => 422 refused 40 place 0 ReadsNothing(0)
POST /jobs HTTP/1.1 >> => 422 refused 10 Empty
POST /jobs HTTP/1.1 >> {two} => 200 text 65\n
POST /jobs HTTP/1.1 >> {two} => 503 refused 70 Full
GET /jobs/17{end} => 404
GET /jobs/65{end} => 200 octets 0 1\n
turn => 1 1
GET /jobs/1{end} => 200 octets 1 1\n0\t{rt1}\n
GET /jobs/2{end} => 200 octets 0 1\n
POST /jobs HTTP/1.1 >> {two} => 503 refused 70 Full",
);
