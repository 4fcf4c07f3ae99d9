//! The workloads as data: what lines each has. They are texts that are looked up when the program runs, since a proof that names a table of
//! structs computes it. `bench/plain` reads this file too, so it is plain Rust.

/// What can be timed as a script of lines: names of blocks of lines, with a blank between each two.
#[derive(Clone, Copy)]
pub struct Workload {
    /// What is counted as an operation of the timed lines: `lines` is each of them, and any other word is read by `count_at`.
    pub operations: &'static str,
    /// The blocks that prepare.
    pub before: &'static str,
    /// The blocks that are timed.
    pub timed: &'static str,
}

/// Lines that are repeated, turn by turn. What stands between braces is filled in:
/// - `{path}` is the path of the turn's number: five names, each with two digits of it, so that no directory holds more than 100;
/// - `{any}` and `{other}` are paths of two numbers below the size, which jump about from turn to turn, and `{any_parent}` is the
///   directory that holds `{any}`;
/// - `{earlier}` is the path of a number below the turn's, and `{behind}` that of the turn's number counted on from the size;
/// - `{level4}` is the turn's directory at depth 4 above the paths, and so on;
/// - `{writer}` is the client who writes `{path}`, one of a hundred by turns;
/// - `{39n+4}` is the turn's number 39 times, and 4 more, and so for any two numbers;
/// - `{2s+39n+4}` is that and the size twice, and so for any three numbers;
/// - `{bytes}` are 512 bytes in hexadecimal digits, which differ from turn to turn.
#[derive(Clone, Copy)]
pub struct Block {
    /// How many turns, as `count_at` reads it.
    pub turns: &'static str,
    /// What is repeated.
    pub lines: &'static str,
}

/// What can be timed, each in a line: its name, its operations, the blocks that prepare, a bar, and the blocks that are timed.
///
/// - `mkdirs`: directories are made, one a line, in a namespace that is empty at first.
/// - `stat`: a caller asks as often what has a path, in a tree of as many directories.
/// - `acl_stat`: the same where each directory has a list of eight entries: he traverses them by the entry of a named user, the last
///   of three.
/// - `setfacl`: the owner modifies as often one entry of such a list.
/// - `ls`: a caller lists directories of a tree. An operation is one listing of up to 100 names.
/// - `rename_dir`: a directory is moved back and forth with a tree beneath it. An operation is one move.
/// - `delete_recursive`: a tree is deleted by one line. An operation is one of its directories at the lowest depth; those above, one
///   in a hundred or so, aren't counted.
/// - `delete_each`: the directories of a tree are deleted by lines, of which each deletes one at depth 4 with the hundred that it holds. An
///   operation is a line.
/// - `create_complete`: files are made, and then closed. An operation is a line: each renews a lease that isn't the last renewed one,
///   or counts an open file less.
/// - `append_takeover`: files that other clients have open are taken over, and opened to append. An operation is one append.
/// - `tick_idle`: with as many files open of a hundred clients, leases past the hard limit are looked for. An operation is one tick.
/// - `tick_expired`: one tick closes a thousand files of a client, with as many files open of a hundred others. An operation is a
///   file that is closed.
/// - `step_stat`: a caller asks as often what has a path, among as many closed files.
/// - `script`: half of the lines make a directory, and the others look at one.
/// - `addblock`: each file gets its first block: its nodes are chosen, and the writer is granted a token.
/// - `addblock_complete`: by turns a file gets its first block, and another one, whose block a DataNode has reported, is closed with its
///   length. An operation is a line.
/// - `open`: a caller opens files, among as many whose one block isn't committed. Nothing is granted.
/// - `open_granted`: a caller opens as often files, of which each block has a length and a DataNode that holds it: it is told, and a
///   token to read it is granted.
/// - `report`: a DataNode's reports of as many replicas are delivered to the NameNode. An operation is one report.
/// - `heartbeat_idle`: DataNodes are heard of, among as many blocks, when none of them is to be told anything. An operation is one
///   heartbeat.
/// - `recovery`: blocks whose writers are gone are recovered: one tick takes all files, and one node leads all recoveries. An
///   operation is one block.
/// - `packet_64k`: a DataNode takes packets of 64 KiB into one replica. An operation is one packet.
/// - `packet_512`: the same of 512 bytes.
/// - `packet_passed_on`: a DataNode takes packets of 512 listed bytes into one replica, and passes them on to another, which does. An
///   operation is a packet.
/// - `read_64k`: a DataNode reads 64 KiB of a finalized replica. An operation is one read.
/// - `pipeline`: blocks are written by a pipeline of three DataNodes. An operation is one block, from the creation of its file to its
///   end.
pub const WORKLOADS: &str = "\
mkdirs lines open | tree
stat lines open tree | looks
acl_stat lines open tree lists lists_at_4 lists_at_3 lists_at_2 lists_at_1 list_of_root | looks
setfacl lines open tree lists lists_at_4 lists_at_3 lists_at_2 lists_at_1 list_of_root | modifications
ls lines open tree | listings
rename_dir lines open here_and_away moved_tree | moves
delete_recursive size open doomed doomed_tree | deletion
delete_each lines open tree | deletions
create_complete lines open writers | creations completions
append_takeover lines open writers creations | takeovers
tick_idle lines open writers creations | idle_ticks
tick_expired 1000 open writers older_files late_files | late_tick
step_stat lines open writers closed_files | looks
script lines shared | mix
addblock lines open writers nodes creations | first_blocks
addblock_complete lines open writers one_node held_blocks reports later_files | blocks_and_ends
open lines open writers nodes creations first_blocks | openings
open_granted lines open writers one_node held_blocks reports ends_of_held | openings
report lines open writers one_node held_blocks | reports
heartbeat_idle lines open writers nodes creations first_blocks | heartbeats
recovery size open writers three_nodes cut_off | late_nodes late_tick late_orders recoveries
packet_64k lines open one_node one_block | packets_64k
packet_512 lines open one_node one_block | packets_512
packet_passed_on size open two_nodes block_of_two | packets_listed
read_64k lines open one_node one_block written_64k | reads_64k
pipeline size open three_nodes | pipelines
";

/// The blocks, each behind an equals sign: its name, its turns, and in the next lines what is repeated. A remark on a block stands before
/// it, in the place of a block whose name is a dash.
const BLOCKS: &str = "\
=- A root that all may write to, with a maker, who makes all directories and owns them, and a reader, who looks at what there is by
the rights of all others. Each has two groups.
=open 1
0 hdfs adduser alice analysts,staff
0 hdfs adduser bob auditors,staff
0 hdfs chmod / 777
=- A hundred clients.
=writers 100
0 hdfs adduser {writer} writers,staff
=- As many directories as the size says, each at depth 5, and at most 100 in one directory. Each hundredth or so is made with
directories above it that are missing.
=tree size
0 alice mkdirs {path} 755
=- The reader asks as often what has a path of the tree, or of the files.
=looks size
0 bob stat {any}
=- Each directory of the tree gets a list of eight entries. Only that of the named user lets the reader through. The maker is let
through as the owner, and by the named group where the superuser is the owner.
=lists size
0 alice setfacl {path} set user::rwx,user:amy:r--,user:ben:---,user:bob:r-x,group::---,group:analysts:r-x,mask::r-x,other::---
=- So do those above them at depth 4.
=lists_at_4 /100
0 alice setfacl {level4} set user::rwx,user:amy:r--,user:ben:---,user:bob:r-x,group::---,group:analysts:r-x,mask::r-x,other::---
=- So do those above them at depth 3.
=lists_at_3 /10000
0 alice setfacl {level3} set user::rwx,user:amy:r--,user:ben:---,user:bob:r-x,group::---,group:analysts:r-x,mask::r-x,other::---
=- So do those above them at depth 2.
=lists_at_2 /1000000
0 alice setfacl {level2} set user::rwx,user:amy:r--,user:ben:---,user:bob:r-x,group::---,group:analysts:r-x,mask::r-x,other::---
=- So do those above them at depth 1.
=lists_at_1 /100000000
0 alice setfacl {level1} set user::rwx,user:amy:r--,user:ben:---,user:bob:r-x,group::---,group:analysts:r-x,mask::r-x,other::---
=- So does the root.
=list_of_root 1
0 hdfs setfacl / set user::rwx,user:amy:r--,user:ben:---,user:bob:r-x,group::---,group:analysts:r-x,mask::r-x,other::---
=- The owner gives the named user the right to write, and takes it, by turns, and the mask follows.
=modifications half
0 alice setfacl {any} modify user:bob:rwx
0 alice setfacl {other} modify user:bob:r-x
=- The reader lists directories, which hold 100 names (the last of the tree may hold fewer).
=listings 20000
0 bob ls {any_parent}
=- What is moved, and where it is moved to.
=here_and_away 1
0 alice mkdirs /here/moved 755
0 alice mkdirs /away 755
=- The tree beneath it.
=moved_tree size
0 alice mkdirs /here/moved{path} 755
=- It is moved there and back again. Both paths are as deep and as long, so no move looks at what is beneath.
=moves 10000
0 alice rename /here/moved /away/moved
0 alice rename /away/moved /here/moved
=- What is deleted.
=doomed 1
0 alice mkdirs /doomed 755
=- The tree beneath it.
=doomed_tree size
0 alice mkdirs /doomed{path} 755
=- It is deleted, with all beneath it.
=deletion 1
0 alice delete /doomed recursive
=- The directories at depth 4 are deleted one after the other, each with the hundred that it holds (the last may hold fewer).
=deletions /100
0 alice delete {level4} recursive
=- As many files as the size says, at the paths of the tree, which their writers open, and all may write.
=creations size
0 {writer} create {path} 777 3
=- They are closed.
=completions size
0 {writer} complete {path}
=- As many files that are made and closed, one after the other.
=closed_files size
0 {writer} create {path} 777 3
0 {writer} complete {path}
=- The reader appends twice to each file, at a moment at which leases that were renewed at 0 are past the soft limit, and within the
hard one: the first append releases the file, and the second opens it.
=takeovers size
60001 bob append {path}
60001 bob append {path}
=- Leases past the hard limit are looked for at the moment 0, when none is.
=idle_ticks 20000
0 hdfs tick
=- A thousand files of the reader.
=older_files 1000
0 bob create {behind} 777 3
=- Files that are opened at a moment at which leases that were renewed at 0 are past the hard limit.
=late_files size
2000000 {writer} create {path} 777 3
=- The tick that takes the files of all whose leases were renewed at 0.
=late_tick 1
2000000 hdfs tick
=- Ten DataNodes are heard of.
=nodes 10
0 dn-{1n+1} heartbeat
=- The writer of each file asks for its first block, on three of the nodes.
=first_blocks size
0 {writer} addblock {path}
=- The reader opens files as often. Where no length of a block is committed, since no node has reported one, none is told.
=openings size
0 bob open {any}
=- Files of one block each, of which a DataNode holds 64 bytes. Its report of each is sent behind one message more.
=held_blocks size
0 {writer} create {path} 777 1
0 {writer} addblock {path}
0 {writer} @1 begin {1n+1} {1n+1001} - #{1n+1}
0 {writer} @1 packet {1n+1} {1n+1001} 0 64*61 - #{1n+1}
0 {writer} @1 finalize {1n+1} {1n+1001} 64 - #{1n+1}
=- The reports come to the NameNode.
=reports size
0 - deliver {1n+2}
=- The files are closed, so that a reader is told their blocks.
=ends_of_held size
0 {writer} complete {path} {1n+1} 64
=- As many other files, which have no block.
=later_files size
0 {writer} create {behind} 777 1
=- One of these gets a block, and one of the former is closed, by turns.
=blocks_and_ends size
0 {writer} addblock {behind}
0 {writer} complete {path} {1n+1} 64
=- The ten nodes are heard of again and again.
=heartbeats 2000
0 dn-1 heartbeat
0 dn-2 heartbeat
0 dn-3 heartbeat
0 dn-4 heartbeat
0 dn-5 heartbeat
0 dn-6 heartbeat
0 dn-7 heartbeat
0 dn-8 heartbeat
0 dn-9 heartbeat
0 dn-10 heartbeat
=- A directory that all may write to.
=shared 1
0 hdfs mkdirs /shared 777
=- By turns a directory at depth 6 is made, and one that was made before is looked at.
=mix half
0 alice mkdirs /shared{path} 755
0 bob stat /shared{earlier}
=- A DataNode is heard of, and gets its keys.
=one_node 1
0 dn-1 heartbeat
0 - deliver 1
=- A file whose one block the node begins to hold.
=one_block 1
0 alice create /file 644 1
0 alice addblock /file
0 alice @1 begin 1 1001 - #1
=- As many packets of 64 KiB come to the node, one behind the other. A replica holds 2,048.
=packets_64k size
0 alice @1 packet 1 1001 {65536n+0} 65536*61 - #1
=- As many of 512 bytes. A replica holds 262,144.
=packets_512 size
0 alice @1 packet 1 1001 {512n+0} 512*61 - #1
=- The block is finalized with 64 KiB, and opened by the reader.
=written_64k 1
0 alice @1 packet 1 1001 0 65536*61 - #1
0 alice @1 finalize 1 1001 65536 - #1
0 - deliver 2
0 alice complete /file 1 65536
0 bob open /file
=- He reads all of it as often.
=reads_64k size
0 bob @1 read 1 1001 0 65536 #2
=- The nodes of a pipeline are heard of, and get their keys.
=two_nodes 2
0 dn-{1n+1} heartbeat
0 - deliver {1n+1}
=- So are three.
=three_nodes 3
0 dn-{1n+1} heartbeat
0 - deliver {1n+1}
=- A file whose one block both nodes begin to hold.
=block_of_two 1
0 alice create /file 644 2
0 alice addblock /file
0 alice @1 begin 1 1001 2 #1
0 - deliver 3
=- As many packets whose bytes are listed come to the first, which passes them on to the second.
=packets_listed size
0 alice @1 packet 1 1001 {512n+0} {bytes} 2 #1
0 - deliver {1n+4}
=- Files of one block each are written, one after the other: 16 packets of 4 KiB go through a pipeline of three nodes, each of which
then reports its replica. Of a file 39 messages are sent, and three were sent before.
=pipelines size
0 alice create {path} 644 3
0 alice addblock {path}
0 alice @1 begin {1n+1} {1n+1001} 2,3 #{1n+1}
0 - deliver {39n+4}
0 - deliver {39n+5}
0 alice @1 packet {1n+1} {1n+1001} 0 4096*61 2,3 #{1n+1}
0 - deliver {39n+6}
0 - deliver {39n+7}
0 alice @1 packet {1n+1} {1n+1001} 4096 4096*61 2,3 #{1n+1}
0 - deliver {39n+8}
0 - deliver {39n+9}
0 alice @1 packet {1n+1} {1n+1001} 8192 4096*61 2,3 #{1n+1}
0 - deliver {39n+10}
0 - deliver {39n+11}
0 alice @1 packet {1n+1} {1n+1001} 12288 4096*61 2,3 #{1n+1}
0 - deliver {39n+12}
0 - deliver {39n+13}
0 alice @1 packet {1n+1} {1n+1001} 16384 4096*61 2,3 #{1n+1}
0 - deliver {39n+14}
0 - deliver {39n+15}
0 alice @1 packet {1n+1} {1n+1001} 20480 4096*61 2,3 #{1n+1}
0 - deliver {39n+16}
0 - deliver {39n+17}
0 alice @1 packet {1n+1} {1n+1001} 24576 4096*61 2,3 #{1n+1}
0 - deliver {39n+18}
0 - deliver {39n+19}
0 alice @1 packet {1n+1} {1n+1001} 28672 4096*61 2,3 #{1n+1}
0 - deliver {39n+20}
0 - deliver {39n+21}
0 alice @1 packet {1n+1} {1n+1001} 32768 4096*61 2,3 #{1n+1}
0 - deliver {39n+22}
0 - deliver {39n+23}
0 alice @1 packet {1n+1} {1n+1001} 36864 4096*61 2,3 #{1n+1}
0 - deliver {39n+24}
0 - deliver {39n+25}
0 alice @1 packet {1n+1} {1n+1001} 40960 4096*61 2,3 #{1n+1}
0 - deliver {39n+26}
0 - deliver {39n+27}
0 alice @1 packet {1n+1} {1n+1001} 45056 4096*61 2,3 #{1n+1}
0 - deliver {39n+28}
0 - deliver {39n+29}
0 alice @1 packet {1n+1} {1n+1001} 49152 4096*61 2,3 #{1n+1}
0 - deliver {39n+30}
0 - deliver {39n+31}
0 alice @1 packet {1n+1} {1n+1001} 53248 4096*61 2,3 #{1n+1}
0 - deliver {39n+32}
0 - deliver {39n+33}
0 alice @1 packet {1n+1} {1n+1001} 57344 4096*61 2,3 #{1n+1}
0 - deliver {39n+34}
0 - deliver {39n+35}
0 alice @1 packet {1n+1} {1n+1001} 61440 4096*61 2,3 #{1n+1}
0 - deliver {39n+36}
0 - deliver {39n+37}
0 alice @1 finalize {1n+1} {1n+1001} 65536 2,3 #{1n+1}
0 - deliver {39n+38}
0 - deliver {39n+40}
0 - deliver {39n+39}
0 - deliver {39n+41}
0 - deliver {39n+42}
0 alice complete {path} {1n+1} 65536
=- Files of one block each, whose writers are gone in the middle of it: each of three nodes has another part, which none has finalized
or reported. No message is sent.
=cut_off size
0 {writer} create {path} 777 3
0 {writer} addblock {path}
0 {writer} @1 begin {1n+1} {1n+1001} - #{1n+1}
0 {writer} @2 begin {1n+1} {1n+1001} - #{1n+1}
0 {writer} @3 begin {1n+1} {1n+1001} - #{1n+1}
0 {writer} @1 packet {1n+1} {1n+1001} 0 900*61 - #{1n+1}
0 {writer} @2 packet {1n+1} {1n+1001} 0 700*61 - #{1n+1}
0 {writer} @3 packet {1n+1} {1n+1001} 0 512*61 - #{1n+1}
=- The nodes are heard of when leases that were renewed at 0 are past the hard limit, and so are live. Their keys were sent before,
too.
=late_nodes 3
2000000 dn-{1n+1} heartbeat
=- The first node, which was heard of as late as the others and has the lowest id, is told all recoveries. Six messages were sent
before the seventh, its keys.
=late_orders 1
2000000 dn-1 heartbeat
=- The recoveries go on, one after the other, and all that is sent of each is delivered: the order to lead it, then of each of three
nodes the question, the answer, the length and, with the report, the confirmation, and at last the end. Of each 16 messages are sent.
=recoveries size
2000000 - deliver {1n+8}
2000000 - deliver {1s+16n+8}
2000000 - deliver {1s+16n+9}
2000000 - deliver {1s+16n+10}
2000000 - deliver {1s+16n+11}
2000000 - deliver {1s+16n+12}
2000000 - deliver {1s+16n+13}
2000000 dn-1 @1 decide {1n+1} {1s+1n+1001}
2000000 - deliver {1s+16n+14}
2000000 - deliver {1s+16n+15}
2000000 - deliver {1s+16n+16}
2000000 - deliver {1s+16n+17}
2000000 - deliver {1s+16n+18}
2000000 - deliver {1s+16n+19}
2000000 - deliver {1s+16n+20}
2000000 - deliver {1s+16n+21}
2000000 - deliver {1s+16n+22}
2000000 dn-1 @1 commit {1n+1} {1s+1n+1001}
2000000 - deliver {1s+16n+23}
";

/// What stands behind a name and a blank, in the first of the pieces of a text that begins with them.
fn behind_name(text: &'static str, separator: char, name: &str) -> Option<&'static str> {
    for piece in text.split(separator) {
        if let Some((first, rest)) = piece.split_once(' ') {
            if first == name {
                return Some(rest);
            }
        }
    }
    None
}

/// The workload of this name.
pub fn workload_named(name: &str) -> Option<Workload> {
    let (operations, blocks) = behind_name(WORKLOADS, '\n', name)?.split_once(' ')?;
    let (before, timed) = blocks.split_once('|')?;
    Some(Workload {
        operations,
        before,
        timed,
    })
}

/// The block of this name.
pub fn block_named(name: &str) -> Option<Block> {
    let (turns, lines) = behind_name(BLOCKS, '=', name)?.split_once('\n')?;
    Some(Block { turns, lines })
}

/// A number in decimal digits.
pub fn number(digits: &str) -> Option<u32> {
    digits.parse::<u32>().ok()
}

/// So many: a number, or `size` for as many as the size says, `half` for half as many, and `/100` for one for each 100 of the size.
pub fn count_at(count: &str, size: u32) -> u32 {
    match count {
        "size" => size,
        "half" => size / 2,
        _ => match count.strip_prefix('/') {
            Some(step) => size.div_ceil(number(step).unwrap_or(1).max(1)),
            None => number(count).unwrap_or(0),
        },
    }
}
