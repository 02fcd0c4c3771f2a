//! The answers of the geocoder's route.
use fixtures::Table;

// Queries over Main Street, which has 101 to 199 on its left and 100 to 198 on its right.
pub const QUERIES: Table = Table(
    r"{rt1}\n
GET /geocode?number=151&name=main&zip=36067{end}
  => 200 text 123456789\tL\t-86494898\t32405102\n
GET /geocode?number=151&name=main{end} => 200 text 123456789\tL\t-86494898\t32405102\n
GET /geocode?number=150&name=main&zip=36067{end} => 200 text 123456789\tR\t-86494898\t32405102\n
GET /geocode?number=101&name=MAIN{end} => 200 text 123456789\tL\t-86500000\t32400000\n
GET /geocode?number=199&name=mAiN{end} => 200 text 123456789\tL\t-86490000\t32410000\n
GET /geocode?number=100&name=Main{end} => 200 text 123456789\tR\t-86500000\t32400000\n
GET /geocode?number=198&name=Main{end} => 200 text 123456789\tR\t-86490000\t32410000\n
GET /geocode?number=99&name=main{end} => 200 text
GET /geocode?number=200&name=main{end} => 200 text
GET /geocode?number=0&name=main{end} => 200 text
GET /geocode?number=99999999999&name=main{end} => 200 text
GET /geocode?number=151&name=mai{end} => 200 text
GET /geocode?number=151&name=mains{end} => 200 text
GET /geocode?number=151&name=main&zip=36068{end} => 200 text
GET /geocode?number=151&name=main&zip=0{end} => 200 text
GET /geocode?number=151&name=main&zip=036067{end} => 200 text 123456789\tL\t-86494898\t32405102\n
GET /geocode?zip=00000036067&name=main&number=00000000151{end} => 200 text 123456789\tL\t-86494898\t32405102\n
GET /geocode{end} => 400
GET /geocode?{end} => 400
GET /geocode?number=151{end} => 400
GET /geocode?name=main{end} => 400
GET /geocode?zip=36067{end} => 400
GET /geocode?name=main&zip=36067{end} => 400
GET /geocode?number=&name=main{end} => 400
GET /geocode?number&name=main{end} => 400
GET /geocode?number=151&name={end} => 400
GET /geocode?number=151&name{end} => 400
GET /geocode?number=151&name=main&zip={end} => 400
GET /geocode?number=151&name=main&zip{end} => 400
GET /geocode?number=151&name=main&number=x&name=&zip=36067&zip=x{end} => 200 text 123456789\tL\t-86494898\t32405102\n
GET /geocode?number=150&name=main&number=151{end} => 200 text 123456789\tR\t-86494898\t32405102\n
GET /geocode?number=x&number=151&name=main{end} => 400
GET /geocode?number&number=151&name=main{end} => 400
GET /geocode?number=151&name=&name=main{end} => 400
GET /geocode?number=151&name=main&zip=x&zip=36067{end} => 400
GET /geocode?number=151&name=main&zip=36068&zip=36067{end} => 200 text
GET /geocode?number=151&name=oak&name=main{end} => 200 text
GET /geocode?n%75mber=151&%6e%61%6D%65=main{end} => 200 text 123456789\tL\t-86494898\t32405102\n
GET /geocode?n%75mber=x&number=151&name=main{end} => 400
GET /geocode?number=%31%35%31&name=m%61i%6E&zip=3606%37{end} => 200 text 123456789\tL\t-86494898\t32405102\n
GET /geocode?number=151&name=%4d%41%49%4E{end} => 200 text 123456789\tL\t-86494898\t32405102\n
GET /geocode?number=151&name=main%26zip=1{end} => 200 text
GET /geocode?number%3d151&name=main{end} => 400
GET /geocode?number=151&name=main+{end} => 200 text 123456789\tL\t-86494898\t32405102\n
GET /geocode?number=151&name=main%20%20{end} => 200 text 123456789\tL\t-86494898\t32405102\n
GET /geocode?number=151&name=+main{end} => 200 text
GET /geocode?number=151&name=+{end} => 200 text
GET /geocode?number=151&name=main%2b{end} => 200 text
GET /geocode?number=+151&name=main{end} => 400
GET /geocode?number=%2b151&name=main{end} => 400
GET /geocode?number=-151&name=main{end} => 400
GET /geocode?number=151+&name=main{end} => 400
GET /geocode?number=1.5&name=main{end} => 400
GET /geocode?number=0x97&name=main{end} => 400
GET /geocode?number=15%d9%a1&name=main{end} => 400
GET /geocode?number=151%00&name=main{end} => 400
GET /geocode?number=151&name=main&zip=36067%00{end} => 400
GET /geocode?number=151&name=main&zip=+36067{end} => 400
GET /geocode?number=151&name=main%00{end} => 200 text
GET /geocode?number=151&name=%00{end} => 200 text
GET /geocode?number=151&name=main%{end} => 200 text
GET /geocode?number=151&name=main%2{end} => 200 text
GET /geocode?number=151&name=main%zz{end} => 200 text
GET /geocode?number=151&name=%{end} => 200 text
GET /geocode?number=151%&name=main{end} => 400
GET /geocode?number=15%3&name=main{end} => 400
GET /geocode?number=15%zz&name=main{end} => 400
GET /geocode?number=151&name=main&zip=3606%3{end} => 400
GET /geocode?number=000000000151&name=main{end} => 400
GET /geocode?number=151&name=main&zip=000000036067{end} => 400
GET /geocode?number=151&name={text x*30}{end} => 200 text
GET /geocode?number=151&name={text x*31}{end} => 400
GET /geocode?number=151&name=main{text +*26}{end} => 200 text 123456789\tL\t-86494898\t32405102\n
GET /geocode?number=151&name=main{text +*27}{end} => 400
GET /geocode?number=151&name={text %61*30}{end} => 200 text
GET /geocode?number=151&name={text %61*31}{end} => 400
GET /geocode?number=151&name={text %c3%a9*30}{end} => 200 text
GET /geocode?number=151&name={text %c3%a9*30}x{end} => 400
GET /geocode?number=151&name={text %ff*30}{end} => 200 text
GET /geocode?number=151&name={text %ff*31}{end} => 400
GET /geocode?number=151&name={text %*30}{end} => 200 text
GET /geocode?number=151&name={text %*31}{end} => 400
GET /geocode?number=151&name={text x*7000}{end} => 400
GET /geocode?number=151&name=m\xc3\xa4in{end} => 200 text
GET /geocode?number=151&name={text \xc3\xa4*30}{end} => 200 text
GET /geocode?number=151&name={text \xc3\xa4*31}{end} => 400
GET /geocode?x=1&number=151&y&=z&name=main&{end} => 200 text 123456789\tL\t-86494898\t32405102\n
GET /geocode?&&number=151&&&name=main&&{end} => 200 text 123456789\tL\t-86494898\t32405102\n
GET /geocode?{text x&*500}number=151&name=main{end} => 200 text 123456789\tL\t-86494898\t32405102\n
GET /geocode?Number=151&name=main{end} => 400
GET /geocode?number=151&NAME=main{end} => 400
GET /geocode?number=151&name=main&ZIP=x{end} => 200 text 123456789\tL\t-86494898\t32405102\n
GET /geocode?number+=151&name=main{end} => 400
GET /geocode?number=151;name=main{end} => 400
GET /geocode?number==151&name=main{end} => 400
GET /geocode?number=151&name=main=x{end} => 200 text
GET /geocode??number=151&name=main{end} => 400
GET /geocode?number=151&name=main?zip=x{end} => 200 text
GET /geocode?number=151&name=main#{end} => 200 text
GET /geocode#?number=151&name=main{end} => 404
GET /geocode/?number=151&name=main{end} => 404
GET /geocode%3fnumber=151&name=main{end} => 404
GET /geocode?number=151&name=main HTTP/1.0\r\n\r\n => 200 text 123456789\tL\t-86494898\t32405102\n
POST /geocode?number=151&name=main HTTP/1.1 >> number=151&name=main => 405 GET
HEAD /geocode?number=151&name=main{end} => 405 GET",
);

// Counties, and the results of queries over them: addresses that descend; ends exchanged; an end without a latitude; a second range on the left,
// without a ZIP code; an alternate name; a letter beyond ASCII; three counties; more than a thousand hits; no county.
pub const COUNTIES: Table = Table(
    r"{rt1 FRADDL=________199 TOADDL=________101}\n
GET /geocode?number=151&name=main{end} => 200 text 123456789\tL\t-86495103\t32404897\n
GET /geocode?number=152&name=main{end} => 200 text 123456789\tR\t-86494694\t32405306\n

{rt1 FRLONG=-086490000 FRLAT=+32410000 TOLONG=-086500000 TOLAT=+32400000}\n
GET /geocode?number=151&name=main{end} => 200 text 123456789\tL\t-86495102\t32404898\n

{rt1 FRLAT=}\n
GET /geocode?number=151&name=main{end} => 200 text 123456789\tL\t-\t-\n

{rt1}\n;;; {rt6 FRADDL=________101 TOADDL=________199 ZIPL=}\n
GET /geocode?number=151&name=main{end}
  => 200 text 123456789\tL\t-86494898\t32405102\n123456789\tL\t-86494898\t32405102\n
GET /geocode?number=151&name=main&zip=36067{end} => 200 text 123456789\tL\t-86494898\t32405102\n
GET /geocode?number=150&name=main{end} => 200 text 123456789\tR\t-86494898\t32405102\n

{rt1}\n; {rt4}\n; {rt5 FENAME=Old_Mill}\n;
GET /geocode?number=151&name=old+mill{end} => 200 text 123456789\tL\t-86494898\t32405102\n
GET /geocode?number=151&name=OLD%20MILL&zip=36067{end} => 200 text 123456789\tL\t-86494898\t32405102\n
GET /geocode?number=151&name=main{end} => 200 text 123456789\tL\t-86494898\t32405102\n
GET /geocode?number=151&name=old{end} => 200 text

{rt1 FENAME=La_Ca\xf1ada}\n
GET /geocode?number=151&name=la+ca%C3%B1ada{end} => 200 text 123456789\tL\t-86494898\t32405102\n
GET /geocode?number=151&name=LA%20CA%c3%b1ADA{end} => 200 text 123456789\tL\t-86494898\t32405102\n
GET /geocode?number=151&name=la+ca\xc3\xb1ada{end} => 200 text 123456789\tL\t-86494898\t32405102\n
GET /geocode?number=151&name=la+ca%C3%91ada{end} => 200 text
GET /geocode?number=151&name=la+ca%F1ada{end} => 200 text
GET /geocode?number=151&name=la+can%CC%83ada{end} => 200 text
GET /geocode?number=151&name=la+canada{end} => 200 text

{rt1 TLID=0000000042}\n{rt1}\n | {rt1\n*0} | {rt1 TLID=0000000007 ZIPL=37067}\n
GET /geocode?number=151&name=main{end}
  => 200 text 42\tL\t-86494898\t32405102\n123456789\tL\t-86494898\t32405102\n7\tL\t-86494898\t32405102\n
GET /geocode?number=151&name=main&zip=36067{end}
  => 200 text 42\tL\t-86494898\t32405102\n123456789\tL\t-86494898\t32405102\n
GET /geocode?number=151&name=main&zip=37067{end} => 200 text 7\tL\t-86494898\t32405102\n
GET /geocode?number=150&name=main&zip=36067{end}
  => 200 text 42\tR\t-86494898\t32405102\n123456789\tR\t-86494898\t32405102\n7\tR\t-86494898\t32405102\n

{rt1\n*600} | {rt1\n*500}
GET /geocode?number=151&name=main{end} => 200 text {text 123456789\tL\t-86494898\t32405102\n*1100}

-
GET /geocode?number=151&name=main{end} => 200 text
GET /geocode?number=151{end} => 400",
);
