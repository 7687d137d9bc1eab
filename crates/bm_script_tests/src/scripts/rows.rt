//! Fault tables. A row is a script, an arrow, what is wrong with the script, and a semicolon.

pub(super) const ROWS: &str = "\
fault = [] -> ;
fault = [{packet=1,hop='direct',copies=0,delay_ns=0}] -> ;
fault = [{packet=200000,hop='chained',copies=3,delay_ns=60000000000}] -> ;
[[fault]]\npacket=1\nhop='direct'\ncopies=1\ndelay_ns=1 -> ;
fault = [{packet=1,hop='direct',copies=1,delay_ns=0}, {packet=1,hop='direct',copies=2,delay_ns=0}] -> ;
[[fault]] -> script fault 1: missing packet;
fault = [{}] -> script fault 1: missing packet;
fault = [{hop='direct',copies=1,delay_ns=0}] -> script fault 1: missing packet;
fault = [{packet=1,copies=1,delay_ns=0}] -> script fault 1: missing hop;
fault = [{packet=1,hop='direct',delay_ns=0}] -> script fault 1: missing copies;
fault = [{packet=1,hop='direct',copies=1}] -> script fault 1: missing delay_ns;
fault = [{packet=0,hop='direct',copies=1,delay_ns=0}] -> script fault 1: bad value of packet;
fault = [{packet=200001,hop='direct',copies=1,delay_ns=0}] -> script fault 1: bad value of packet;
fault = [{packet='1',hop='direct',copies=1,delay_ns=0}] -> script fault 1: bad value of packet;
fault = [{packet=1,hop='mux',copies=1,delay_ns=0}] -> script fault 1: bad value of hop;
fault = [{packet=1,hop='Direct',copies=1,delay_ns=0}] -> script fault 1: bad value of hop;
fault = [{packet=1,hop='twice',copies=1,delay_ns=0}] -> script fault 1: bad value of hop;
fault = [{packet=1,hop=0,copies=1,delay_ns=0}] -> script fault 1: bad value of hop;
fault = [{packet=1,hop='direct',copies=-1,delay_ns=0}] -> script fault 1: bad value of copies;
fault = [{packet=1,hop='direct',copies=4,delay_ns=0}] -> script fault 1: bad value of copies;
fault = [{packet=1,hop='direct',copies=1.0,delay_ns=0}] -> script fault 1: bad value of copies;
fault = [{packet=1,hop='direct',copies=1,delay_ns=-1}] -> script fault 1: bad value of delay_ns;
fault = [{packet=1,hop='direct',copies=1,delay_ns=60000000001}] -> script fault 1: bad value of delay_ns;
fault = [{packet=1,hop='direct',copies=1,delay_ns='0'}] -> script fault 1: bad value of delay_ns;
fault = [{packet=1,hop='direct',copies=1,delay_ns=0,mux=1}] -> script fault 1: unknown key mux;
fault = [{mux=1}] -> script fault 1: unknown key mux;
fault = [{mux=1,lag=1,packet=0}] -> script fault 1: unknown key lag;
fault = [{buckets=8}] -> script fault 1: unknown key buckets;
fault = [{delay_ns=-1,copies=9,hop=1,packet=0}] -> script fault 1: bad value of packet;
fault = [{delay_ns=-1,copies=9,hop=1,packet=1}] -> script fault 1: bad value of hop;
fault = [{packet=1,hop='direct',copies=1,delay_ns=0},{}] -> script fault 2: missing packet;
fault = [{packet=1,hop='direct',copies=1,delay_ns=0},{x=1}] -> script fault 2: unknown key x;
fault = [{packet=1},{x=1}] -> script fault 1: missing hop;
[[fault]]\n[[command]] -> script fault 1: missing packet;
buckets = 0\n[[fault]] -> script: bad value of buckets;
";
