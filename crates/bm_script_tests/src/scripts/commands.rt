//! Commands. A row is a script, an arrow, what is wrong with the script, and a semicolon.

/// A script with a command of each kind.
pub(super) const WHOLE: &str = "command = [
  { at_ns = 500, do = 'add', server = 3 },
  { at_ns = 550, do = 'close', server = 1, from = '10.0.0.1:1000', to = '192.0.2.1:80' },
  { at_ns = 600, do = 'drain', server = 1 },
  { at_ns = 600, do = 'retire', server = 1 },
  { at_ns = 700, do = 'move', bucket = 5, server = 3 },
  { at_ns = 700, do = 'sync' },
]
";

pub(super) const TABLES: &str = "\
command = [] -> ;
command = [{at_ns=0,do='sync'}] -> ;
[[command]]\nat_ns=0\ndo='sync' -> ;
command = [{at_ns=4000000000000000000,do='sync'}] -> ;
command = [{at_ns=7,do='sync'},{at_ns=7,do='sync'}] -> ;
command = [{at_ns=0,do='add',server=1024}] -> ;
command = [{at_ns=0,do='close',server=2,from='0.0.0.0:0',to='255.255.255.255:65535'}] -> ;
command = [{}] -> script command 1: missing at_ns;
[[command]] -> script command 1: missing at_ns;
command = [{do='sync'}] -> script command 1: missing at_ns;
command = [{at_ns=-1,do='sync'}] -> script command 1: bad value of at_ns;
command = [{at_ns=4000000000000000001,do='sync'}] -> script command 1: bad value of at_ns;
command = [{at_ns='0',do='sync'}] -> script command 1: bad value of at_ns;
command = [{at_ns=0.0,do='sync'}] -> script command 1: bad value of at_ns;
command = [{at_ns=5,do='sync'},{at_ns=4,do='sync'}] -> script command 2: bad value of at_ns;
command = [{at_ns=5,do='add',server=3},{at_ns=4,do='add',server=3}] -> script command 2: bad value of at_ns;
command = [{at_ns=0}] -> script command 1: missing do;
command = [{at_ns=0,server=0}] -> script command 1: missing do;
command = [{at_ns=0,do='stop'}] -> script command 1: bad value of do;
command = [{at_ns=0,do='Sync'}] -> script command 1: bad value of do;
command = [{at_ns=0,do=''}] -> script command 1: bad value of do;
command = [{at_ns=0,do=1,zz=1}] -> script command 1: bad value of do;
command = [{at_ns=-1,do=1}] -> script command 1: bad value of at_ns;
command = [{at_ns=0,do='sync',server=1}] -> script command 1: unknown key server;
command = [{at_ns=0,do='sync',x=1,a=1}] -> script command 1: unknown key a;
command = [{at_ns=0,do='add',bucket=1}] -> script command 1: unknown key bucket;
command = [{at_ns=0,do='drain',server=0,to=1}] -> script command 1: unknown key to;
command = [{at_ns=0,do='move',server=1,bucket=0,from=1}] -> script command 1: unknown key from;
command = [{at_ns=0,do='close',bucket=1}] -> script command 1: unknown key bucket;
command = [{at_ns=0,do='retire',shard=1}] -> script command 1: unknown key shard;
command = [{at_ns=0,do='add'}] -> script command 1: missing server;
command = [{at_ns=0,do='drain'}] -> script command 1: missing server;
command = [{at_ns=0,do='retire'}] -> script command 1: missing server;
command = [{at_ns=0,do='add',server=0}] -> script command 1: bad value of server;
command = [{at_ns=0,do='add',server=1025}] -> script command 1: bad value of server;
command = [{at_ns=0,do='drain',server='1'}] -> script command 1: bad value of server;
command = [{at_ns=0,do='retire',server=-1}] -> script command 1: bad value of server;
command = [{at_ns=0,do='move'}] -> script command 1: missing bucket;
command = [{at_ns=0,do='move',server=0}] -> script command 1: missing bucket;
command = [{at_ns=0,do='move',bucket=-1,server=0}] -> script command 1: bad value of bucket;
command = [{at_ns=0,do='move',bucket=65536,server=1}] -> script command 1: bad value of bucket;
command = [{at_ns=0,do='move',bucket=0}] -> script command 1: missing server;
command = [{at_ns=0,do='move',bucket=0,server=0}] -> script command 1: bad value of server;
command = [{at_ns=0,do='close',from=1,to=1}] -> script command 1: missing server;
command = [{at_ns=0,do='close',server=1,to=1}] -> script command 1: missing from;
command = [{at_ns=0,do='close',server=1,from='1.2.3.4:5'}] -> script command 1: missing to;
command = [{at_ns=0,do='close',server=1,from='1.2.3.4',to='1.2.3.4:5'}] -> script command 1: bad value of from;
";

pub(super) const REFUSALS: &str = "\
command = [{at_ns=0,do='add',server=1}] -> script command 1: known server;
command = [{at_ns=0,do='add',server=3},{at_ns=0,do='add',server=3}] -> script command 2: known server;
command = [{at_ns=0,do='drain',server=1},{at_ns=0,do='add',server=1}] -> script command 2: known server;
command = [{at_ns=0,do='drain',server=3}] -> script command 1: unknown server;
command = [{at_ns=0,do='drain',server=1},{at_ns=0,do='drain',server=1}] -> script command 2: not active;
command = [{at_ns=0,do='drain',server=1},{at_ns=0,do='drain',server=2}] -> script command 2: last server;
servers = [5]\ncommand = [{at_ns=0,do='drain',server=5}] -> script command 1: last server;
command = [{at_ns=0,do='move',bucket=8,server=1}] -> script command 1: bad bucket;
command = [{at_ns=0,do='move',bucket=65535,server=9}] -> script command 1: bad bucket;
buckets = 65536\ncommand = [{at_ns=0,do='move',bucket=65535,server=1}] -> ;
command = [{at_ns=0,do='move',bucket=7,server=3}] -> script command 1: unknown server;
command = [{at_ns=0,do='drain',server=1},{at_ns=0,do='move',bucket=0,server=1}] -> script command 2: not active;
command = [{at_ns=0,do='move',bucket=0,server=1}] -> script command 1: same server;
command = [{at_ns=0,do='move',bucket=0,server=2},{at_ns=0,do='move',bucket=0,server=1}] -> ;
command = [{at_ns=0,do='move',bucket=0,server=2},{at_ns=0,do='move',bucket=0,server=2}] -> script command 2: same server;
command = [{at_ns=0,do='close',server=3,from='1.2.3.4:5',to='1.2.3.4:5'}] -> script command 1: unknown server;
command = [{at_ns=0,do='close',server=3,from='1.2.3.4:5',to='5'}] -> script command 1: bad value of to;
command = [{at_ns=0,do='retire',server=3}] -> script command 1: unknown server;
command = [{at_ns=0,do='add',server=3},{at_ns=0,do='retire',server=3}] -> ;
command = [{at_ns=0,do='retire',server=3},{at_ns=0,do='add',server=3}] -> script command 1: unknown server;
command = [{at_ns=0,do='drain',server=1},{at_ns=0,do='retire',server=1}] -> ;
command = [{at_ns=0,do='sync'},{at_ns=0,do='add',server=2},{}] -> script command 2: known server;
command = [{at_ns=0,do='sync'},{at_ns=0,do='sync'},{at_ns=0,do='sync',z=1}] -> script command 3: unknown key z;
fault = [{}]\ncommand = [{at_ns=0,do='add',server=1}] -> script fault 1: missing packet;
servers = [3, 9]\ncommand = [{at_ns=0,do='add',server=1},{at_ns=9,do='drain',server=9}] -> ;
";

/// A script of version 2: weights at the top, in `add` and in `weight`.
pub(super) const WEIGHED: &str = "version = 2
weights = [1, 2]
command = [
  { at_ns = 500, do = 'add', server = 3, weight = 2 },
  { at_ns = 600, do = 'weight', server = 3, weight = 1 },
  { at_ns = 600, do = 'weight', server = 3, weight = 1 },
  { at_ns = 700, do = 'drain', server = 1 },
]
";

/// Servers 1 and 2 weigh 1 each if the script doesn't say it.
pub(super) const PLAINLY_WEIGHED: &str =
    "version = 2\ncommand = [{ at_ns = 500, do = 'add', server = 3, weight = 2 }]";

pub(super) const WEIGHTS: &str = "\
version = 2\ncommand = [{at_ns=0,do='add',server=3,weight=1}] -> ;
version = 2\ncommand = [{at_ns=0,do='add',server=3,weight=1000}] -> ;
version = 2\ncommand = [{at_ns=0,do='add',server=3}] -> script command 1: missing weight;
version = 2\ncommand = [{at_ns=0,do='add',weight=1}] -> script command 1: missing server;
version = 2\ncommand = [{at_ns=0,do='add',server=3,weight=0}] -> script command 1: bad value of weight;
version = 2\ncommand = [{at_ns=0,do='add',server=3,weight=1001}] -> script command 1: bad value of weight;
version = 2\ncommand = [{at_ns=0,do='add',server=3,weight=-1}] -> script command 1: bad value of weight;
version = 2\ncommand = [{at_ns=0,do='add',server=3,weight=1.0}] -> script command 1: bad value of weight;
version = 2\ncommand = [{at_ns=0,do='add',server=3,weight='1'}] -> script command 1: bad value of weight;
version = 2\ncommand = [{at_ns=0,do='add',server=0,weight=0}] -> script command 1: bad value of server;
version = 2\ncommand = [{at_ns=0,do='add',server=1,weight=0}] -> script command 1: bad value of weight;
version = 2\ncommand = [{at_ns=0,do='add',server=1,weight=1}] -> script command 1: known server;
command = [{at_ns=0,do='add',server=3,weight=1}] -> script command 1: unknown key weight;
version = 1\ncommand = [{at_ns=0,do='add',server=3,weight=1}] -> script command 1: unknown key weight;
version = 2\ncommand = [{at_ns=0,do='drain',server=1,weight=1}] -> script command 1: unknown key weight;
command = [{at_ns=0,do='weight',server=1,weight=1}] -> script command 1: bad value of do;
version = 1\ncommand = [{at_ns=0,do='weight',server=1,weight=1}] -> script command 1: bad value of do;
version = 2\ncommand = [{at_ns=0,do='weight',server=1,weight=1}] -> ;
version = 2\ncommand = [{at_ns=0,do='weight',server=1,weight=1000},{at_ns=0,do='weight',server=1,weight=1000}] -> ;
version = 2\ncommand = [{at_ns=0,do='weight',server=1}] -> script command 1: missing weight;
version = 2\ncommand = [{at_ns=0,do='weight',weight=1}] -> script command 1: missing server;
version = 2\ncommand = [{at_ns=0,do='weight',server=1,weight=1,bucket=1}] -> script command 1: unknown key bucket;
version = 2\ncommand = [{at_ns=0,do='weight',server=1,weight=0}] -> script command 1: bad value of weight;
version = 2\ncommand = [{at_ns=0,do='weight',server=1,weight=1001}] -> script command 1: bad value of weight;
version = 2\ncommand = [{at_ns=0,do='weight',server=1,weight=1.0}] -> script command 1: bad value of weight;
version = 2\ncommand = [{at_ns=0,do='weight',server=1,weight='1'}] -> script command 1: bad value of weight;
version = 2\ncommand = [{at_ns=0,do='weight',server=0,weight=0}] -> script command 1: bad value of server;
version = 2\ncommand = [{at_ns=0,do='weight',server=3,weight=1}] -> script command 1: unknown server;
version = 2\ncommand = [{at_ns=0,do='weight',server=3,weight=0}] -> script command 1: bad value of weight;
version = 2\ncommand = [{at_ns=0,do='drain',server=1},{at_ns=0,do='weight',server=1,weight=1}] -> script command 2: not active;
version = 2\ncommand = [{at_ns=5,do='sync'},{at_ns=4,do='weight',server=3,weight=1}] -> script command 2: bad value of at_ns;
";

/// A script of version 3: servers 1 and 3 stand in rack 0, server 2 in rack 1.
pub(super) const RACKED: &str = "version = 3
racks = 2
command = [
  { at_ns = 500, do = 'add', server = 3, weight = 1 },
]
";

/// Each bucket opens at a server of the other rack.
pub(super) const ASTRAY: &str = "version = 3
racks = 2
servers = [2, 3]
command = [
  { at_ns = 500, do = 'weight', server = 2, weight = 1 },
]
";

pub(super) const RACKS: &str = "\
version = 3\nracks = 2\ncommand = [{at_ns=500,do='add',server=3,weight=1}] -> ;
version = 3\nracks = 2\ncommand = [{at_ns=500,do='drain',server=2}] -> script command 1: last in rack;
version = 3\nracks = 2\ncommand = [{at_ns=500,do='add',server=4,weight=1},{at_ns=500,do='drain',server=2}] -> ;
version = 3\nracks = 2\ncommand = [{at_ns=0,do='add',server=3,weight=1},{at_ns=0,do='drain',server=2}] -> script command 2: last in rack;
version = 3\nracks = 2\ncommand = [{at_ns=0,do='add',server=3,weight=1},{at_ns=0,do='drain',server=1},{at_ns=0,do='drain',server=3}] -> script command 3: last in rack;
version = 3\nracks = 2\ncommand = [{at_ns=0,do='drain',server=4}] -> script command 1: unknown server;
version = 3\nservers = [1]\nracks = 1\ncommand = [{at_ns=0,do='drain',server=1}] -> script command 1: last server;
version = 3\nracks = 2\ncommand = [{at_ns=500,do='move',bucket=4,server=2}] -> script command 1: wrong rack;
version = 3\nracks = 2\ncommand = [{at_ns=0,do='move',bucket=8,server=2}] -> script command 1: bad bucket;
version = 3\nracks = 2\ncommand = [{at_ns=0,do='move',bucket=4,server=4}] -> script command 1: unknown server;
version = 3\nracks = 2\ncommand = [{at_ns=0,do='move',bucket=4,server=1}] -> script command 1: same server;
version = 3\nracks = 2\nservers = [2, 3]\ncommand = [{at_ns=0,do='move',bucket=4,server=2}] -> script command 1: wrong rack;
version = 3\nracks = 2\nservers = [2, 3]\ncommand = [{at_ns=0,do='move',bucket=4,server=3}] -> ;
version = 3\nracks = 2\ncommand = [{at_ns=0,do='add',server=3}] -> script command 1: missing weight;
version = 3\ncommand = [{at_ns=0,do='drain',server=1},{at_ns=0,do='move',bucket=0,server=1}] -> script command 2: not active;
";
