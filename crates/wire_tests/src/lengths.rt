//! The lengths of bodies, and the order in which faults are reported.
use fixtures::Table;

// Each table begins with a job, and its rows assign no id, as the next job shows.
//
// Lengths that are numbers, then other values; two lengths; the names of headers; transfer codings; bodies; other methods; and requests with more
// than one fault.
pub const LENGTHS: Table = Table(
    r"{rt1}\n
jobs => 1
turn => 1 1
POST /verify HTTP/1.1\r\nContent-Length: 16\r\n\r\n{every}
  => 200 text accepted\n
POST /verify HTTP/1.1\r\nContent-Length:16\r\n\r\n{every} => 200 text accepted\n
POST /verify HTTP/1.1\r\nContent-Length: \t  16 \t\r\n\r\n{every} => 200 text accepted\n
POST /verify HTTP/1.1\r\nContent-Length: 0000000000000000000000000000000016\r\n\r\n{every} => 200 text accepted\n
POST /verify HTTP/1.1\r\nContent-Length: 0\r\n\r\n => 422 refused 10 Empty
POST /verify HTTP/1.1\r\nContent-Length: 000\r\n\r\n{every} => 422 refused 10 Empty
POST /verify HTTP/1.1\r\nContent-Length: 1048577\r\n\r\n{every*100}
  => =413 Payload Too Large; text/plain; 10; too large\n
POST /verify HTTP/1.1\r\nContent-Length: 00000001048577\r\n\r\n => 413
POST /verify HTTP/1.1\r\nContent-Length: 4294967312\r\n\r\n{every} => 413
POST /verify HTTP/1.1\r\nContent-Length: 18446744073709551616\r\n\r\n{every} => 413
POST /verify HTTP/1.1\r\nContent-Length: 18446744073709551632\r\n\r\n{every} => 413
POST /verify HTTP/1.1\r\nContent-Length: 340282366920938463463374607431768211472\r\n\r\n{every} => 413
POST /verify HTTP/1.1\r\nContent-Length: {text 9*30}\r\n\r\n{every} => 413
POST /verify HTTP/1.1\r\nContent-Length:\r\n\r\n{every} => 400
POST /verify HTTP/1.1\r\nContent-Length: \t \r\n\r\n{every} => 400
POST /verify HTTP/1.1\r\nContent-Length: +16\r\n\r\n{every} => 400
POST /verify HTTP/1.1\r\nContent-Length: -16\r\n\r\n{every} => 400
POST /verify HTTP/1.1\r\nContent-Length: -0\r\n\r\n{every} => 400
POST /verify HTTP/1.1\r\nContent-Length: 0x10\r\n\r\n{every} => 400
POST /verify HTTP/1.1\r\nContent-Length: a\r\n\r\n{every} => 400
POST /verify HTTP/1.1\r\nContent-Length: 1 6\r\n\r\n{every} => 400
POST /verify HTTP/1.1\r\nContent-Length: 1\t6\r\n\r\n{every} => 400
POST /verify HTTP/1.1\r\nContent-Length: 16 x\r\n\r\n{every} => 400
POST /verify HTTP/1.1\r\nContent-Length: 16,16\r\n\r\n{every} => 400
POST /verify HTTP/1.1\r\nContent-Length: 16, 16\r\n\r\n{every} => 400
POST /verify HTTP/1.1\r\nContent-Length: 16;\r\n\r\n{every} => 400
POST /verify HTTP/1.1\r\nContent-Length: 16.0\r\n\r\n{every} => 400
POST /verify HTTP/1.1\r\nContent-Length: 1e1\r\n\r\n{every} => 400
POST /verify HTTP/1.1\r\nContent-Length: 1_6\r\n\r\n{every} => 400
POST /verify HTTP/1.1\r\nContent-Length: 16u\r\n\r\n{every} => 400
POST /verify HTTP/1.1\r\nContent-Length: /16\r\n\r\n{every} => 400
POST /verify HTTP/1.1\r\nContent-Length: 16:\r\n\r\n{every} => 400
POST /verify HTTP/1.1\r\nContent-Length: \xb9\r\n\r\n{every} => 400
POST /verify HTTP/1.1\r\nContent-Length: \xd9\xa1\r\n\r\n{every} => 400
POST /verify HTTP/1.1\r\nContent-Length: 99999999999999999999x\r\n\r\n{every} => 400
POST /verify HTTP/1.1\r\nContent-Length: {text 9*30} 1\r\n\r\n{every} => 400
POST /verify HTTP/1.1\r\n\r\n{every} => 411
POST /verify HTTP/1.1\r\nHost: x\r\n\r\n => =411 Length Required; text/plain; 16; length required\n
POST /verify HTTP/1.0\r\n\r\n{every} => 411
POST /assemble{end} => 411
POST /disassemble{end} => 411
POST /extract{end} => 411
POST /jobs{end} => 411
POST /verify HTTP/1.1\r\nContent-Length: 16\r\nContent-Length: 16\r\n\r\n{every} => 400
POST /verify HTTP/1.1\r\nContent-Length: 16\r\nContent-Length: 8\r\n\r\n{every} => 400
POST /verify HTTP/1.1\r\nContent-Length: 16\r\nHost: x\r\nCONTENT-LENGTH: 16\r\n\r\n{every} => 400
POST /verify HTTP/1.1\r\nContent-Length: 16\r\ncontent-length:\r\n\r\n{every} => 400
POST /verify HTTP/1.1\r\nContent-Length:\r\nContent-Length: 16\r\n\r\n{every} => 400
POST /verify HTTP/1.1\r\n{text Content-Length: 16\r\n*64}\r\n{every} => 400
POST /verify HTTP/1.1\r\ncontent-length: 16\r\n\r\n{every} => 200 text accepted\n
POST /verify HTTP/1.1\r\nCONTENT-LENGTH: 16\r\n\r\n{every} => 200 text accepted\n
POST /verify HTTP/1.1\r\ncOnTeNt-LeNgTh: 16\r\n\r\n{every} => 200 text accepted\n
POST /verify HTTP/1.1\r\nHost: x\r\nContent-Type: y\r\nContent-Length: 16\r\nA: b\r\n\r\n{every} => 200 text accepted\n
POST /verify HTTP/1.1\r\nContent-Lengt: 16\r\n\r\n{every} => 411
POST /verify HTTP/1.1\r\nContent-Lengths: 16\r\n\r\n{every} => 411
POST /verify HTTP/1.1\r\nX-Content-Length: 16\r\n\r\n{every} => 411
POST /verify HTTP/1.1\r\nContent_Length: 16\r\n\r\n{every} => 411
POST /verify HTTP/1.1\r\nContentLength: 16\r\n\r\n{every} => 411
POST /verify HTTP/1.1\r\nA: Content-Length: 16\r\n\r\n{every} => 411
POST /verify HTTP/1.1\r\nContent-Length : 16\r\n\r\n{every} => 400
POST /verify HTTP/1.1\r\nTransfer-Encoding: chunked\r\n\r\n10\r\n{every}\r\n0\r\n\r\n => 411
POST /verify HTTP/1.1\r\nTransfer-Encoding: chunked\r\nContent-Length: 16\r\n\r\n{every} => 411
POST /verify HTTP/1.1\r\nContent-Length: 16\r\nTransfer-Encoding: chunked\r\n\r\n{every} => 411
POST /verify HTTP/1.1\r\nContent-Length: 16\r\nTransfer-Encoding: identity\r\n\r\n{every} => 411
POST /verify HTTP/1.1\r\nContent-Length: 16\r\nTransfer-Encoding:\r\n\r\n{every} => 411
POST /verify HTTP/1.1\r\nContent-Length: 16\r\nTransfer-Encoding: \t\r\n\r\n{every} => 411
POST /verify HTTP/1.1\r\ntransfer-encoding: gzip, chunked\r\nContent-Length: 16\r\n\r\n{every} => 411
POST /verify HTTP/1.1\r\nTRANSFER-ENCODING: x\r\nContent-Length: 16\r\n\r\n{every} => 411
POST /verify HTTP/1.1\r\ntRaNsFeR-eNcOdInG: \xff\r\nContent-Length: 16\r\n\r\n{every} => 411
POST /verify HTTP/1.0\r\nTransfer-Encoding: chunked\r\nContent-Length: 16\r\n\r\n{every} => 411
POST /verify HTTP/1.1\r\n{text Transfer-Encoding: chunked\r\n*2}Content-Length: 16\r\n\r\n{every} => 411
POST /verify HTTP/1.1\r\nTransfer-Encodin: chunked\r\nContent-Length: 16\r\n\r\n{every} => 200 text accepted\n
POST /verify HTTP/1.1\r\nX-Transfer-Encoding: chunked\r\nContent-Length: 16\r\n\r\n{every} => 200 text accepted\n
POST /verify HTTP/1.1\r\nTE: chunked\r\nTrailer: x\r\nContent-Length: 16\r\n\r\n{every} => 200 text accepted\n
POST /verify HTTP/1.1\r\nContent-Length: 17\r\n\r\n{every} => 400
POST /verify HTTP/1.1\r\nContent-Length: 1\r\n\r\n => 400
POST /verify HTTP/1.1\r\nContent-Length: 1048576\r\n\r\n => 400
POST /assemble HTTP/1.1\r\nContent-Length: 5\r\n\r\nexit => 400
POST /jobs HTTP/1.1\r\nContent-Length: 17\r\n\r\n{every} => 400
POST /verify HTTP/1.1\r\nContent-Length: 8\r\n\r\n{every} => 422 refused 33 place 0 LastNotExit
POST /verify HTTP/1.1\r\nContent-Length: 16\r\n\r\n{every}\x00 => 200 text accepted\n
POST /verify HTTP/1.1\r\nContent-Length: 16\r\n\r\n{every}POST /jobs HTTP/1.1\r\nContent-Length: 16\r\n\r\n{every}
  => 200 text accepted\n
POST /assemble HTTP/1.1\r\nContent-Length: 4\r\n\r\nexit 1 => 200 octets {stuck}
GET /jobs/1 HTTP/1.1\r\nContent-Length: 5\r\n\r\n => 200 octets 1 1\n0\t{rt1}\n
GET /jobs/1 HTTP/1.1\r\nContent-Length: x\r\nContent-Length:\r\nTransfer-Encoding: chunked\r\n\r\n
  => 200 octets 1 1\n0\t{rt1}\n
GET /jobs/1 HTTP/1.1\r\nContent-Length: {text 9*30}\r\n\r\n => 200 octets 1 1\n0\t{rt1}\n
GET /geocode?number=151&name=main HTTP/1.1\r\nTransfer-Encoding:\r\nContent-Length: -1\r\n\r\n
  => 200 text 123456789\tL\t-86494898\t32405102\n
GET /geocode HTTP/1.1\r\nContent-Length: 1048577\r\n\r\n => 400
DELETE /jobs/2 HTTP/1.1\r\nContent-Length: 5\r\n\r\n => 404
DELETE /jobs/2 HTTP/1.1\r\nContent-Length: x\r\nContent-Length: 1048577\r\nTransfer-Encoding: chunked\r\n\r\n => 404
PUT /nothing HTTP/1.1\r\nTransfer-Encoding: chunked\r\nContent-Length: x\r\nContent-Length: 1048577\r\n\r\n => 404
POST /nothing HTTP/1.1\r\n\r\n => 404
POST /nothing HTTP/1.1\r\nContent-Length: 1048577\r\n\r\n => 404
PUT /verify HTTP/1.1\r\n\r\n => 405 POST
PUT /verify HTTP/1.1\r\nTransfer-Encoding: chunked\r\nContent-Length: x\r\n\r\n => 405 POST
PUT /jobs HTTP/1.1\r\nContent-Length: 1048577\r\n\r\n => 405 POST
POST /jobs/1 HTTP/1.1\r\n\r\n => 405 GET, DELETE
POST /geocode HTTP/1.1\r\nContent-Length: 1048577\r\n\r\n => 405 GET
POST /verify HTTP/1.1\r\nContent-Length: x\r\nTransfer-Encoding: chunked\r\n\r\n{every} => 411
POST /verify HTTP/1.1\r\nContent-Length: 16\r\nTransfer-Encoding: chunked\r\nContent-Length: 16\r\n\r\n{every} => 411
POST /verify HTTP/1.1\r\nContent-Length: 1048577\r\nTransfer-Encoding: chunked\r\n\r\n{every} => 411
POST /verify HTTP/1.1\r\nContent-Length: 1048577\r\nContent-Length: 1048577\r\n\r\n{every} => 400
POST /verify HTTP/1.1\r\nContent-Length: 16\r\nContent-Length: 1048577\r\n\r\n{every} => 400
POST /verify HTTP/1.1\r\nContent-Length: 1048577\r\nContent-Length: 16\r\n\r\n{every} => 400
POST /verify HTTP/1.1\r\nContent-Length: 1048577\r\nContent-Length: x\r\n\r\n{every} => 400
POST /jobs HTTP/1.1\r\nContent-Length: 1048577\r\n\r\n{every} => 413
POST /jobs HTTP/1.1\r\nContent-Length: 9\r\n\r\n{stuck} => 400
POST /assemble HTTP/1.1\r\nContent-Length: 2\r\n\r\n\xff => 400
turn => none
job => 2",
);

// Long bodies, and lengths of many digits.
pub const LARGE: Table = Table(
    r"{rt1}\n
POST /verify HTTP/1.1\r\nContent-Length: {text 0*4000}16\r\n\r\n{every} => 200 text accepted\n
POST /verify HTTP/1.1\r\nContent-Length: 1048576\r\n\r\n{every*65536} => 422 refused 12 TooLong
POST /verify HTTP/1.1\r\nContent-Length: 1048575\r\n\r\n{every*65536} => 422 refused 11 NotWhole
POST /verify HTTP/1.1\r\nContent-Length: {text 9*8000}\r\n\r\n{every} => 413
POST /verify HTTP/1.1\r\nContent-Length: 1048576\r\n\r\n{every*65535}{stuck}\x00\x00\x00\x00\x00\x00\x00 => 400
POST /verify HTTP/1.1\r\nContent-Length: 16\r\n\r\n{every*4000} => 200 text accepted\n
POST /verify HTTP/1.1\r\nContent-Length: 524288\r\n\r\n{every*32768}{stuck} => 200 text accepted\n",
);
