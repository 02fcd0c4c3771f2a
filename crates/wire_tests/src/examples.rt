//! Requests with whole replies, those that docs/http.md shows among them, in its order. tests/run looks for the page's in these tables, and sends
//! them to the program.
use fixtures::Table;

// The blocks with complete replies, separated by empty lines: the county, then each request of curl and its reply. Turns are the ones that the
// server makes after connections.
//
// In curl's requests, the version of curl is fixed, and the Content-Type of a body, which the server ignores, is left out.
pub const BLOCKS: Table = Table(
    r"one
POST /verify{curl} >> {every} => =200 OK; text/plain; 9; accepted\n
POST /verify{curl} >> {stuck} => =422 Unprocessable Entity; text/plain; 35; refused 40 place 0 ReadsNothing(0)\n

one
POST /assemble{curl} >> {not_water.s} => =200 OK; application/octet-stream; 24; {not_water}
POST /assemble{curl} >> frob r0 => =422 Unprocessable Entity; text/plain; 34; refused 21 line 1 UnknownMnemonic\n

one
POST /disassemble{curl} >> {not_water} => =200 OK; text/plain; 34; ldxb r0, [r1+55]\nadd r0, -72\nexit\n
POST /disassemble{curl} >> 1234567 => =422 Unprocessable Entity; text/plain; 20; refused 11 NotWhole\n

one
POST /extract{curl} >> {every} => =200 OK; application/octet-stream; 231; 0\t{lantern}\n
POST /extract{curl} >> {stuck} => =422 Unprocessable Entity; text/plain; 35; refused 40 place 0 ReadsNothing(0)\n

one
POST /select?score=FRADDL{curl} >> FENAME = 'Lantern' => =200 OK; application/octet-stream; 233; 201\t{lantern}\n
POST /select?score=FRADDL&format=csv&columns=FENAME,FETYPE&geometry=none{curl} >> FENAME = 'Lantern'
  => =200 OK; text/csv; 35; score,FENAME,FETYPE\n201,Lantern,Ct\n
POST /select{curl} >> ZIPL = '36067' => =422 Unprocessable Entity; text/plain; 99; refused 92 line 1 column 8 WrongType\nthe column isn't of this
  type: write a number, without quotes\n
POST /select?fmt=csv{curl} >> ZIPL = 36067 => =400 Bad Request; text/plain; 41; error: unexpected argument '--fmt' found\n

one
GET /geocode?number=251&name=lantern{curl} => =200 OK; text/plain; 31; 107000725\tL\t-86629812\t32412161\n
GET /geocode?number=251&name=Old+Lantern&zip=36067{curl} => =200 OK; text/plain; 31; 107000725\tL\t-86629812\t32412161\n
GET /geocode?number=251&name=lantern&zip=36068{curl} => =200 OK; text/plain; 0;
GET /geocode?number=251{curl} => =400 Bad Request; text/plain; 12; bad request\n

one
GET /health{curl} => =200 OK; text/plain; 3; ok\n
GET /{curl} => =200 OK; text/plain; 232; POST /assemble\nPOST /compile\nPOST /disassemble\nPOST /explain\nPOST /extract\nPOST /filter-jobs\nPOST
  /geocode-batch\nGET /geocode\nGET /health\nPOST /jobs\nGET /metrics\nGET /open-jobs\nPOST /select\nPOST /verify\nGET /\nGET, DELETE /jobs/\x7bid\x7d\n

one
POST /jobs{curl} >> {every} => =200 OK; text/plain; 2; 1\n
turn => 1 1
GET /jobs/1{curl} => =200 OK; application/octet-stream; 235; 1 1\n0\t{lantern}\n
GET /open-jobs{curl} => =200 OK; text/plain; 6; 1 1 1\n
DELETE /jobs/1{curl} => =200 OK; text/plain; 8; dropped\n
GET /jobs/1{curl} => =404 Not Found; text/plain; 10; not found\n

one
jobs => 64
POST /jobs{curl} >> => =503 Service Unavailable; text/plain; 16; refused 70 Full\n

one
PUT /jobs/1{curl} => =405 Method Not Allowed; text/plain; 19; method not allowed\n; GET, DELETE",
);

// The block whose replies are shown in part, which is between the last two blocks above in the document. Any 400 segments stand in for the example
// county.
pub const TURNS: Table = Table(
    r"{rt1\n*400}
POST /jobs{curl} >> {every} => 200 text 1\n
turn => 256 400
GET /jobs/1{curl} => 200 octets 256 400\n{0\trt1\n*256}
turn => 400 400
GET /jobs/1{curl} => 200 octets 400 400\n{0\trt1\n*400}
turn => none
GET /jobs/1{curl} => 200 octets 400 400\n{0\trt1\n*400}
DELETE /jobs/1{curl} => 200 text dropped\n",
);

// The requests that are shown byte for byte.
pub const REQUESTS: Table = Table(
    r"{rt1}\n
GET /geocode HTTP/2.0\r\n\r\n => 400
GET  /geocode HTTP/1.1\r\n\r\n => 400
GET /geocode HTTP/1.1\r\nHost : a\r\n\r\n => 400
GET /geocode HTTP/1.1\r\nX: a\r\n b\r\n\r\n => 400
GET /index.html HTTP/1.1\r\n\r\n => 404
FROB /Verify HTTP/1.1\r\n\r\n => 404
GET /jobs/ HTTP/1.1\r\n\r\n => 404
GET /verify HTTP/1.1\r\n\r\n => 405 POST
FROB /verify HTTP/1.1\r\n\r\n => 405 POST
HEAD /geocode?number=251&name=lantern HTTP/1.1\r\n\r\n => 405 GET
HEAD /health HTTP/1.1\r\n\r\n => 405 GET
GET /jobs HTTP/1.1\r\n\r\n => 405 POST
PUT /jobs/x HTTP/1.1\r\n\r\n => 405 GET, DELETE
POST /verify HTTP/1.1\r\n\r\n => 411
POST /verify HTTP/1.1\r\nTransfer-Encoding: chunked\r\nContent-Length: x\r\n\r\n => 411
POST /verify HTTP/1.1\r\nTransfer-Encoding:\r\nContent-Length: 0\r\n\r\n => 411
POST /verify HTTP/1.1\r\nContent-Length:\r\n\r\n => 400
POST /verify HTTP/1.1\r\nContent-Length: +8\r\n\r\n => 400
POST /verify HTTP/1.1\r\nContent-Length: 0\r\ncontent-length: 0\r\n\r\n => 400
POST /verify HTTP/1.1\r\nContent-Length: 1048577\r\n\r\n => 413
POST /verify HTTP/1.1\r\nContent-Length: 99999999999999999999999999\r\n\r\n => 413
POST /assemble HTTP/1.1\r\nContent-Length: 1\r\n\r\n\xff => 400
GET /geocode?number=164-20&name=lantern HTTP/1.1\r\n\r\n => 400
GET /geocode?number=251&name= HTTP/1.1\r\n\r\n => 400
GET /geocode?number=251&name=lantern&zip= HTTP/1.1\r\n\r\n => 400
GET /geocode?number=x&number=251&name=lantern HTTP/1.1\r\n\r\n => 400
GET /jobs/0 HTTP/1.0\r\n\r\n => 404
\r\n\nGET /jobs/x HTTP/1.1\nContent-Length: x\n\n => 404
DELETE /jobs/18446744073709551616 HTTP/1.1\r\n\r\n => 404",
);

// Requests with what comes next. A client that stays silent is covered by the tests of slow clients.
pub const ENDS: Table = Table(
    r"{rt1}\n
 => 80
\r\n\r\n => 400
GET /jobs/0 HTTP/1.1\r\n => 400
GET /jobs/0 HTTP/1.1\r\nX: {text a*8192} => 400
GET /jobs/0 HTTP/1.1\r\n{text X: a\r\n*64}\r\n => 404
GET /jobs/0 HTTP/1.1\r\n{text X: a\r\n*65}\r\n => 400
POST /verify HTTP/1.1\r\nContent-Length: 16\r\n\r\n{asm mov r0, 1 | hex 95000000000000} => 400
POST /verify HTTP/1.1\r\nContent-Length: 0016\r\n\r\n{every}any other bytes => 200 text accepted\n",
);
