//! Rows for the command `geocode`. Places are worked out by hand: house 151 is 50/98 of the way along Main Street's line.
use fixtures::Table;

pub const GEOCODES: Table = Table(
    r"
extractd geocode --data d --number 151 --name main --zip 36067 01001; 123456789\tL\t-86494898\t32405102\n; 0;;
  d/TGR01001.RT1: {rt1}\n
extractd geocode --data d --number 150 --name main --zip 36067 01001; 123456789\tR\t-86494898\t32405102\n; 0;;
  d/TGR01001.RT1: {rt1}\n
extractd geocode --data d --number 151 --name main --zip 36068 01001;; 0;; d/TGR01001.RT1: {rt1}\n
extractd geocode --data d --number 151 --name MAIN 01001; 123456789\tL\t-86494898\t32405102\n; 0;;
  d/TGR01001.RT1: {rt1}\n
extractd geocode --data d --number 00000000151 --name main --zip 00000036067 01001;
  123456789\tL\t-86494898\t32405102\n; 0;; d/TGR01001.RT1: {rt1}\n
extractd geocode --data d --number 99999999999 --name main --zip 0 01001;; 0;; d/TGR01001.RT1: {rt1}\n
extractd geocode --data d --number 151 --name main --zip 0 01001;; 0;; d/TGR01001.RT1: {rt1}\n{rt1 ZIPL=}\n
extractd geocode --data d --number 151 --name main --zip 00000 01001;; 0;; d/TGR01001.RT1: {rt1}\n{rt1 ZIPL=}\n
extractd geocode --data d --number 151 --name main --zip 0 01001; 7\tL\t-86494898\t32405102\n; 0;;
  d/TGR01001.RT1: {rt1}\n{rt1 TLID=7 ZIPL=00000}\n{rt1 TLID=8 ZIPL=00001}\n
extractd geocode --data d --number 151 --name main --zip 00000 01001; 7\tL\t-86494898\t32405102\n; 0;;
  d/TGR01001.RT1: {rt1}\n{rt1 TLID=7 ZIPL=00000}\n{rt1 TLID=8 ZIPL=00001}\n
extractd geocode --data d --number 151 --name main 01001 01003;
  {text 123456789\tL\t-86494898\t32405102\n*600}{text 7\tL\t-86494898\t32405102\n*600}; 0;;
  d/TGR01001.RT1: {rt1\n*600}; d/TGR01003.RT1: {rt1 TLID=7\n*600}
extractd geocode --data d --number 151 --name mai 01001;; 0;; d/TGR01001.RT1: {rt1}\n
extractd geocode --data d --number 151 --name Old_Main 01001; 123456789\tL\t-86494898\t32405102\n; 0;;
  d/TGR01001.RT1: {rt1 FENAME=Old_Main}\n{rt1 FENAME=OldMain}\n
extractd geocode --data d --number 151 --name main_ 01001; 123456789\tL\t-86494898\t32405102\n; 0;;
  d/TGR01001.RT1: {rt1}\n
extractd geocode --data d --number 151 --name main 01001; 123456789\tL\t-\t-\n; 0;; d/TGR01001.RT1: {rt1 FRLAT=}\n
extractd geocode --data d --number 151 --name main 01001;; 0;; d/TGR01001.RT1:
extractd geocode --data d --number 151 --name main 01001;
  123456789\tL\t-86494898\t32405102\n123456789\tL\t-86494898\t32405102\n; 0;; d/TGR01001.RT1: {rt1}\n;
  d/TGR01001.RT6: {rt6 TLID=123456789 RTSQ= FRADDL=101 TOADDL=199 ZIPL=}\n
extractd geocode --data d --number 151 --name main --zip 36067 01001; 123456789\tL\t-86494898\t32405102\n; 0;;
  d/TGR01001.RT1: {rt1}\n; d/TGR01001.RT6: {rt6 TLID=123456789 RTSQ= FRADDL=101 TOADDL=199 ZIPL=}\n
extractd geocode --data d --number 151 --name main 01001 01003;
  123456789\tL\t-86494898\t32405102\n7\tL\t-86495103\t32404897\n; 0;; d/TGR01001.RT1: {rt1}\n;
  d/TGR01003.RT1: {rt1 TLID=7 FRADDL=199 TOADDL=101}\n
extractd geocode --data d --number 151 --name main 01003 01001;
  7\tL\t-86495103\t32404897\n123456789\tL\t-86494898\t32405102\n; 0;; d/TGR01001.RT1: {rt1}\n;
  d/TGR01003.RT1: {rt1 TLID=7 FRADDL=199 TOADDL=101}\n
extractd geocode --data d --number 151 --name main 01001 01001;
  123456789\tL\t-86494898\t32405102\n123456789\tL\t-86494898\t32405102\n; 0;; d/TGR01001.RT1: {rt1}\n
extractd geocode --data d --number 151 --name main 01001 01003;; 1; refused 1 rt1 line 1 WrongLength;
  d/TGR01001.RT1: {rt1}\n; d/TGR01003.RT1: {rt1 ..227}\n
extractd geocode --data d --number 151 --name main 01001 01003;; 1; refused 2 rt1 line 2 WrongType;
  d/TGR01001.RT1: {rt1}\n{rt1 RT=4}\n
extractd geocode --data d --number 151 --name main 01001 01003;; 1; refused 3 rt6 line 1 BadTlid;
  d/TGR01001.RT1: {rt1}\n{rt1 ..227}\n; d/TGR01001.RT6: {rt6 TLID= RTSQ= FRADDL= TOADDL= ZIPL=}\n
extractd geocode --data d --number 151 --name main 01001 01003;; 3; refused 5 rt1 line 1 Read;
  d/TGR01001.RT1: {rt1}\n; d/TGR01003.RT1: ! call 1 pipe
extractd geocode --data d --number 151 --name main 01001 01003;; 3; error: d/TGR01003.RT1: not found;
  d/TGR01001.RT1: {rt1}\n
extractd geocode --data d --number 151 --name main 01003 01001;; 3; error: d/TGR01003.RT1: not found;
  d/TGR01001.RT1: {rt1 ..227}\n
extractd geocode --data d --number 151 --name main 01001 01003;; 4; refused memory; d/TGR01001.RT1: {rt1}\n;
  d/TGR01003.RT1: ! closed memory
extractd geocode --data d --number 151 --name main 01001 01003;; 3; error: d/TGR01001.RT6: permission denied;
  d/TGR01001.RT1: {rt1}\n; d/TGR01003.RT1: {rt1}\n; d/TGR01001.RT6: ! closed denied
",
);
