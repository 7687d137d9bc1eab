//! Texts and top keys. A row is a script, an arrow, what is wrong with the script, and a semicolon.

/// A script with all top keys except `command`.
pub(super) const WHOLE: &str = "version = 1
buckets = 16
servers = [3, 7]
muxes = 2
shards = 5
capacity = 6
timeout_s = 9
vips = ['1.2.3.4:443']
route = 'turn'
lags_ns = [10, 20]
[[fault]]
packet = 9
hop = 'chained'
copies = 0
delay_ns = 11
[[fault]]
packet = 8
hop = 'direct'
copies = 3
delay_ns = 11
";

pub(super) const TEXTS: &str = "\
\u{feff}buckets = 8 -> ;
 -> ;
buckets = 8 # eight\r\n -> ;
buckets =  -> script: not toml;
buckets -> script: not toml;
= 8 -> script: not toml;
buckets = 8 8 -> script: not toml;
buckets = 08 -> script: not toml;
buckets = 8\nbuckets = 8 -> script: not toml;
buckets = 8\n'buckets' = 8 -> script: not toml;
buckets = 9223372036854775808 -> script: not toml;
route = 'port -> script: not toml;
route = \"\\q\" -> script: not toml;
servers = [1, 2 -> script: not toml;
fault = []\n[[fault]] -> script: not toml;
[command]\n[[command]] -> script: not toml;
";

pub(super) const NUMBERS: &str = "\
version = 1 -> ;
version = 0 -> script: bad value of version;
version = 2 -> ;
version = 3 -> ;
version = 4 -> script: bad value of version;
version = '1' -> script: bad value of version;
version = 1.0 -> script: bad value of version;
version = true -> script: bad value of version;
version = [1] -> script: bad value of version;
buckets = 1 -> ;
buckets = 65536 -> ;
buckets = +8 -> ;
buckets = 0x10 -> ;
buckets = 1_000 -> ;
buckets = 0 -> script: bad value of buckets;
buckets = 65537 -> script: bad value of buckets;
buckets = -1 -> script: bad value of buckets;
buckets = -9223372036854775808 -> script: bad value of buckets;
buckets = 9223372036854775807 -> script: bad value of buckets;
buckets = 8.0 -> script: bad value of buckets;
buckets = inf -> script: bad value of buckets;
buckets = false -> script: bad value of buckets;
buckets = '8' -> script: bad value of buckets;
buckets = 1979-05-27 -> script: bad value of buckets;
buckets = [] -> script: bad value of buckets;
buckets = {} -> script: bad value of buckets;
buckets.x = 8 -> script: bad value of buckets;
muxes = 1 -> ;
muxes = 64 -> ;
muxes = 0 -> script: bad value of muxes;
muxes = 65 -> script: bad value of muxes;
muxes = '1' -> script: bad value of muxes;
shards = 1 -> ;
shards = 64 -> ;
shards = 0 -> script: bad value of shards;
shards = 65 -> script: bad value of shards;
capacity = 1 -> ;
capacity = 65536 -> ;
capacity = 0 -> script: bad value of capacity;
capacity = 65537 -> script: bad value of capacity;
capacity = 0.5 -> script: bad value of capacity;
timeout_s = 1 -> ;
timeout_s = 86400 -> ;
timeout_s = 0 -> script: bad value of timeout_s;
timeout_s = 86401 -> script: bad value of timeout_s;
timeout_s = 00:04:00 -> script: bad value of timeout_s;
";

pub(super) const LISTS: &str = "\
servers = [1] -> ;
servers = [1, 1024] -> ;
servers = [7, 8, 100] -> ;
servers = [] -> script: bad value of servers;
servers = 1 -> script: bad value of servers;
servers = [0] -> script: bad value of servers;
servers = [0, 1] -> script: bad value of servers;
servers = [1, 1025] -> script: bad value of servers;
servers = [2, 1] -> script: bad value of servers;
servers = [1, 1] -> script: bad value of servers;
servers = [-1, 1] -> script: bad value of servers;
servers = [1, '2'] -> script: bad value of servers;
servers = [1.0] -> script: bad value of servers;
servers = [[1]] -> script: bad value of servers;
servers = {} -> script: bad value of servers;
vips = ['192.0.2.1:1'] -> ;
vips = ['0.0.0.0:65535'] -> ;
vips = ['255.255.255.255:80'] -> ;
vips = ['192.0.2.1:80', '192.0.2.1:80'] -> ;
vips = [] -> script: bad value of vips;
vips = '192.0.2.1:80' -> script: bad value of vips;
vips = [1] -> script: bad value of vips;
vips = [''] -> script: bad value of vips;
vips = [':80'] -> script: bad value of vips;
vips = ['192.0.2.1'] -> script: bad value of vips;
vips = ['192.0.2.1:'] -> script: bad value of vips;
vips = ['192.0.2.1:0'] -> script: bad value of vips;
vips = ['192.0.2.1:65536'] -> script: bad value of vips;
vips = ['192.0.2.1:99999999999999999999'] -> script: bad value of vips;
vips = ['256.0.2.1:80'] -> script: bad value of vips;
vips = ['192.0.2.256:80'] -> script: bad value of vips;
vips = ['192.00.2.1:80'] -> script: bad value of vips;
vips = ['192.0.2.01:80'] -> script: bad value of vips;
vips = ['192.0.2.1:080'] -> script: bad value of vips;
vips = ['+192.0.2.1:80'] -> script: bad value of vips;
vips = ['192.0.2.-1:80'] -> script: bad value of vips;
vips = ['192.0.2.1:+80'] -> script: bad value of vips;
vips = [' 192.0.2.1:80'] -> script: bad value of vips;
vips = ['192.0.2.1:80 '] -> script: bad value of vips;
vips = ['192.0.2.1: 80'] -> script: bad value of vips;
vips = ['192.0.2:80'] -> script: bad value of vips;
vips = ['192.0.2.1.5:80'] -> script: bad value of vips;
vips = ['192..2.1:80'] -> script: bad value of vips;
vips = ['192.0.2.1:8:0'] -> script: bad value of vips;
vips = ['192.0.2.0x1:80'] -> script: bad value of vips;
vips = ['a.b.c.d:80'] -> script: bad value of vips;
vips = ['[::1]:80'] -> script: bad value of vips;
vips = ['192.0.2.1:80', '192.0.2.1'] -> script: bad value of vips;
route = 'port' -> ;
route = 'turn' -> ;
route = \"\\u0070ort\" -> ;
route = '' -> script: bad value of route;
route = 'Port' -> script: bad value of route;
route = 'random' -> script: bad value of route;
route = 1 -> script: bad value of route;
route = ['port'] -> script: bad value of route;
lags_ns = [86400000000000] -> ;
muxes = 2\nlags_ns = [0, 5] -> ;
lags_ns = [86400000000001] -> script: bad value of lags_ns;
lags_ns = [-1] -> script: bad value of lags_ns;
lags_ns = [] -> script: bad value of lags_ns;
lags_ns = [0, 0] -> script: bad value of lags_ns;
muxes = 2\nlags_ns = [0] -> script: bad value of lags_ns;
lags_ns = 0 -> script: bad value of lags_ns;
lags_ns = ['0'] -> script: bad value of lags_ns;
lags_ns = [0.0] -> script: bad value of lags_ns;
muxes = 3\nlags_ns = [0, 0, '0'] -> script: bad value of lags_ns;
";

pub(super) const KEYS: &str = "\
bucket = 8 -> script: unknown key bucket;
Buckets = 8 -> script: unknown key Buckets;
buckets_ = 8 -> script: unknown key buckets_;
weights = [1] -> script: unknown key weights;
packet = 1 -> script: unknown key packet;
x = 1\na = 2 -> script: unknown key a;
apple = 1\nZebra = 2 -> script: unknown key Zebra;
b = 1\na-b = 1\naa = 1 -> script: unknown key a-b;
'' = 1 -> script: unknown key ;
'a b' = 1 -> script: unknown key a b;
\"\\u00e9\" = 1 -> script: unknown key é;
\"x\\ty\" = 1 -> script: unknown key x\ty;
x.y = 1 -> script: unknown key x;
[x] -> script: unknown key x;
[[x]] -> script: unknown key x;
'buckets' = 0 -> script: bad value of buckets;
\"buc\\u006Bets\" = 0 -> script: bad value of buckets;
command = 1\nzz = 1 -> script: unknown key zz;
route = 1\nbuckets = 0 -> script: bad value of buckets;
lags_ns = 1\nvips = 1 -> script: bad value of vips;
timeout_s = 0\ncapacity = 0 -> script: bad value of capacity;
shards = 0\nservers = 0\nmuxes = 0 -> script: bad value of servers;
command = 1\nfault = 1 -> script: bad value of fault;
fault = 1\nlags_ns = 1 -> script: bad value of lags_ns;
fault = {} -> script: bad value of fault;
[fault] -> script: bad value of fault;
fault = [{packet = 0}, 1] -> script: bad value of fault;
command = 'sync' -> script: bad value of command;
command = [[]] -> script: bad value of command;
[command] -> script: bad value of command;
command = [{}, 1] -> script: bad value of command;
command = 1\n[[fault]] -> script: bad value of command;
";

pub(super) const WEIGHTS: &str = "\
version = 2\nweights = [1, 1000] -> ;
version = 2\nservers = [3]\nweights = [7] -> ;
version = 2\nweights = [] -> script: bad value of weights;
version = 2\nweights = [1] -> script: bad value of weights;
version = 2\nweights = [1, 1, 1] -> script: bad value of weights;
version = 2\nweights = [0, 1] -> script: bad value of weights;
version = 2\nweights = [1, 1001] -> script: bad value of weights;
version = 2\nweights = [1, -1] -> script: bad value of weights;
version = 2\nweights = [1.0, 1] -> script: bad value of weights;
version = 2\nweights = ['1', 1] -> script: bad value of weights;
version = 2\nweights = [[1], 1] -> script: bad value of weights;
version = 2\nweights = 1 -> script: bad value of weights;
version = 2\nweights = {} -> script: bad value of weights;
weights = [1, 1] -> script: unknown key weights;
version = 1\nweights = [1, 1] -> script: unknown key weights;
version = 3\nweights = [1, 1] -> ;
version = 4\nweights = [1, 1] -> script: unknown key weights;
version = 0\nweights = [1, 1] -> script: unknown key weights;
version = '2'\nweights = [1, 1] -> script: unknown key weights;
version = 2.0\nweights = [1, 1] -> script: unknown key weights;
version = [2]\nweights = [1, 1] -> script: unknown key weights;
version = 2\nracks = 1 -> script: unknown key racks;
version = 2\nweight = 1 -> script: unknown key weight;
version = 2\nweights = 0\nservers = 0 -> script: bad value of servers;
version = 2\nmuxes = 0\nweights = 0 -> script: bad value of weights;
";

pub(super) const RACKS: &str = "\
version = 3\nracks = 1 -> ;
version = 3\nracks = 2 -> ;
version = 3\nracks = 2\nweights = [1, 1000] -> ;
version = 3\nservers = [2, 3]\nracks = 2 -> ;
version = 3\nservers = [4, 8, 12]\nracks = 3 -> ;
version = 3\nbuckets = 3\nservers = [1, 2, 3]\nracks = 3 -> ;
version = 3\nracks = 0 -> script: bad value of racks;
version = 3\nracks = -1 -> script: bad value of racks;
version = 3\nracks = 2.0 -> script: bad value of racks;
version = 3\nracks = '2' -> script: bad value of racks;
version = 3\nracks = [2] -> script: bad value of racks;
version = 3\nbuckets = 2\nservers = [1, 2, 3]\nracks = 3 -> script: bad value of racks;
version = 3\nracks = 3 -> script: bad value of racks;
version = 3\nservers = [1, 3]\nracks = 2 -> script: bad value of racks;
version = 3\nservers = [2, 4, 6]\nracks = 2 -> script: bad value of racks;
racks = 1 -> script: unknown key racks;
version = 1\nracks = 1 -> script: unknown key racks;
version = 4\nracks = 1 -> script: unknown key racks;
version = '3'\nracks = 1 -> script: unknown key racks;
version = 3\nrack = 1 -> script: unknown key rack;
version = 3\nmuxes = 0\nracks = 0 -> script: bad value of racks;
version = 3\nracks = 0\nweights = 0 -> script: bad value of weights;
";
