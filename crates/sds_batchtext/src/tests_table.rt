//! Documents, each with what it gives: of each batch its id and its number of rows, the node with
//! its line, and the end.

/// For each sentence on a directive and for each cause a document or more.
pub(crate) const TABLE: &[(&[u8], &str)] = &[
    (b"", "; -; clean"),
    (b"\n\n# nothing\n", "; -; clean"),
    (b"nodeid,s1", "; s1 1; clean"),
    (b"\n \"nodeid\" , \"s1\"\n", "; s1 2; clean"),
    (b"nodeid,s1\nnodeid,s1\n", "; s1 1; 2.4"),
    (b"nodeid,s1\nchannel,sale\nnodeid,s1\n", "; s1 1; 3.4"),
    (
        b"nodeid,s1\nchannel,sale\nbatch,1\ntable,sale\nkeys,id\ncolumns,id,qty\nnodeid,s1\n",
        "; s1 1; 7.4",
    ),
    (b"nodeid\n", "; -; 1.5"),
    (b"nodeid,\n", "; -; 1.5"),
    (b"nodeid,\"s 1\"\n", "; -; 1.5"),
    (b"nodeid,s1,s2\n", "; -; 1.5"),
    (
        b"binary,HEX\nbinary,NONE\nbinary,\"BASE64\"\nnodeid,s1\nchannel,sale\nbinary,HEX\n\
          batch,1\ncommit,1\n",
        "1:0; s1 4; clean",
    ),
    (b"binary,hex\n", "; -; 1.5"),
    (b"binary\n", "; -; 1.5"),
    (b"binary,HEX,HEX\n", "; -; 1.5"),
    (
        b"nodeid,s1\nchannel,sale\nbatch,1\nbinary,HEX\n",
        "; s1 1; 4.4",
    ),
    (b"channel,sale\n", "; -; 1.4"),
    (
        b"nodeid,s1\nchannel,sale\nchannel,item\nbatch,1\ncommit,1\n",
        "1:0; s1 1; clean",
    ),
    (
        b"nodeid,s1\nchannel,sale\nbatch,1\nchannel,item\n",
        "; s1 1; 4.4",
    ),
    (b"nodeid,s1\nchannel\n", "; s1 1; 2.5"),
    (b"nodeid,s1\nchannel,a.b\n", "; s1 1; 2.5"),
    (b"nodeid,s1\nbatch,1\n", "; s1 1; 2.4"),
    (
        b"nodeid,s1\nchannel,sale\nbatch,1\nbatch,2\n",
        "; s1 1; 4.4",
    ),
    (b"nodeid,s1\nchannel,sale\nbatch,0\n", "; s1 1; 3.5"),
    (
        b"nodeid,s1\nchannel,sale\nbatch,4611686018427387904\ncommit,4611686018427387904\n",
        "4611686018427387904:0; s1 1; clean",
    ),
    (
        b"nodeid,s1\nchannel,sale\nbatch,4611686018427387905\n",
        "; s1 1; 3.5",
    ),
    (
        b"nodeid,s1\nchannel,sale\nbatch,99999999999999999999999\n",
        "; s1 1; 3.5",
    ),
    (
        b"nodeid,s1\nchannel,sale\nbatch,000000000000000000000000007\ncommit,\"07\"\n",
        "7:0; s1 1; clean",
    ),
    (b"nodeid,s1\nchannel,sale\nbatch,+1\n", "; s1 1; 3.5"),
    (b"nodeid,s1\nchannel,sale\nbatch,\n", "; s1 1; 3.5"),
    (b"nodeid,s1\nchannel,sale\nbatch\n", "; s1 1; 3.5"),
    (b"nodeid,s1\nchannel,sale\nbatch,1,2\n", "; s1 1; 3.5"),
    (b"table,sale\n", "; -; 1.4"),
    (b"nodeid,s1\nchannel,sale\nbatch,1\ntable\n", "; s1 1; 4.5"),
    (
        b"nodeid,s1\nchannel,sale\nbatch,1\ntable,\"\"\n",
        "; s1 1; 4.5",
    ),
    (b"keys,id\n", "; -; 1.4"),
    (b"columns,id\n", "; -; 1.4"),
    (
        b"nodeid,s1\nchannel,sale\nbatch,1\nkeys,id\n",
        "; s1 1; 4.4",
    ),
    (
        b"nodeid,s1\nchannel,sale\nbatch,1\ncolumns,id\n",
        "; s1 1; 4.4",
    ),
    (
        b"nodeid,s1\nchannel,sale\nbatch,1\ntable,sale\nkeys\n",
        "; s1 1; 5.5",
    ),
    (
        b"nodeid,s1\nchannel,sale\nbatch,1\ntable,sale\nkeys,id,\n",
        "; s1 1; 5.5",
    ),
    (
        b"nodeid,s1\nchannel,sale\nbatch,1\ntable,sale\ncolumns\n",
        "; s1 1; 5.5",
    ),
    (
        b"nodeid,s1\nchannel,sale\nbatch,1\ntable,sale\nkeys,id\ncolumns,id,qty\ncommit,1\n\
          batch,2\nkeys,id\n",
        "1:0; s1 1; 9.4",
    ),
    (
        b"nodeid,s1\nchannel,sale\nbatch,1\ntable,sale\nkeys,id\ncolumns,id,qty\n\
insert,1,2\nupdate,1,3,1\nold,1,3\nupdate,1,4,1\ndelete,1\nold,1,4\ndelete,1\n\
          commit,1\n",
        "1:5; s1 1; clean",
    ),
    (b"insert,1,2\n", "; -; 1.4"),
    (b"update,1,2\n", "; -; 1.4"),
    (b"old,1,2\n", "; -; 1.4"),
    (b"delete,1,2\n", "; -; 1.4"),
    (
        b"nodeid,s1\nchannel,sale\nbatch,1\ntable,sale\nkeys,id\ninsert,1,2\n",
        "; s1 1; 6.4",
    ),
    (
        b"nodeid,s1\nchannel,sale\nbatch,1\ntable,sale\ncolumns,id\ninsert,1\n",
        "; s1 1; 6.4",
    ),
    (
        b"nodeid,s1\nchannel,sale\nbatch,1\ntable,sale\nkeys,id\ncolumns,id,qty\ninsert\n",
        "; s1 1; 7.5",
    ),
    (
        b"nodeid,s1\nchannel,sale\nbatch,1\ntable,sale\nkeys,id\ncolumns,id,qty\ninsert,1\n",
        "; s1 1; 7.5",
    ),
    (
        b"nodeid,s1\nchannel,sale\nbatch,1\ntable,sale\nkeys,id\ncolumns,id,qty\ninsert,1,2,3\n",
        "; s1 1; 7.5",
    ),
    (
        b"nodeid,s1\nchannel,sale\nbatch,1\ntable,sale\nkeys,id\ncolumns,id,qty\ninsert,,\n\
          commit,1\n",
        "1:1; s1 1; clean",
    ),
    (
        b"nodeid,s1\nchannel,sale\nbatch,1\ntable,sale\nkeys,id\ncolumns,id,qty\nupdate,1,2\n",
        "; s1 1; 7.5",
    ),
    (
        b"nodeid,s1\nchannel,sale\nbatch,1\ntable,sale\nkeys,id\ncolumns,id,qty\nupdate,1,2,3,4\n",
        "; s1 1; 7.5",
    ),
    (
        b"nodeid,s1\nchannel,sale\nbatch,1\ntable,sale\nkeys,id\ncolumns,id,qty\ndelete\n",
        "; s1 1; 7.5",
    ),
    (
        b"nodeid,s1\nchannel,sale\nbatch,1\ntable,sale\nkeys,id\ncolumns,id,qty\ndelete,1,2\n",
        "; s1 1; 7.5",
    ),
    (
        b"nodeid,s1\nchannel,sale\nbatch,1\ntable,sale\nkeys,id\ncolumns,id,qty\nold,1\n",
        "; s1 1; 7.5",
    ),
    (
        b"nodeid,s1\nchannel,sale\nbatch,1\ntable,sale\nkeys,id\ncolumns,id,qty\nold,1,2\n\
          ts,5\n\n# note\nschema\nupdate,1,3,1\ncommit,1\n",
        "1:1; s1 1; clean",
    ),
    (
        b"nodeid,s1\nchannel,sale\nbatch,1\ntable,sale\nkeys,id\ncolumns,id,qty\nold,1,2\n\
          insert,1,2\n",
        "; s1 1; 8.4",
    ),
    (
        b"nodeid,s1\nchannel,sale\nbatch,1\ntable,sale\nkeys,id\ncolumns,id,qty\nold,1,2\n\
          old,1,2\n",
        "; s1 1; 8.4",
    ),
    (
        b"nodeid,s1\nchannel,sale\nbatch,1\ntable,sale\nkeys,id\ncolumns,id,qty\nold,1,2\n\
          table,sale\n",
        "; s1 1; 8.4",
    ),
    (
        b"nodeid,s1\nchannel,sale\nbatch,1\ntable,sale\nkeys,id\ncolumns,id,qty\nold,1,2\n\
          ts\ncommit,1\n",
        "; s1 1; 9.4",
    ),
    (
        b"nodeid,s1\nchannel,sale\nbatch,1\ntable,sale\nkeys,id\ncolumns,id,qty\ncommit,1\n\
          batch,2\ntable,sale\ninsert,1,2\ncommit,2\n",
        "1:0 2:1; s1 1; clean",
    ),
    (
        b"nodeid,s1\nchannel,sale\nbatch,1\ntable,sale\nkeys,id\ncolumns,id,qty\ncommit,1\n\
          batch,2\ninsert,1,2\n",
        "1:0; s1 1; 9.4",
    ),
    (
        b"nodeid,s1\nchannel,sale\nbatch,1\ntable,sale\nkeys,id\ncolumns,id,qty\n\
          table,item\ninsert,1,2\n",
        "; s1 1; 8.4",
    ),
    (
        b"nodeid,s1\nchannel,sale\nbatch,1\ntable,sale\nkeys,id\ncolumns,id,qty\n\
          table,item\nkeys,a\ncolumns,a\ninsert,1\ntable,sale\ninsert,1,2\ncommit,1\n",
        "1:2; s1 1; clean",
    ),
    (
        b"nodeid,s1\nchannel,sale\nbatch,1\ntable,sale\nkeys,id\ncolumns,id,qty\n\
          columns,id\ninsert,1\ncommit,1\n",
        "1:1; s1 1; clean",
    ),
    (b"commit,1\n", "; -; 1.4"),
    (
        b"nodeid,s1\nchannel,sale\nbatch,1\ntable,sale\nkeys,id\ncolumns,id,qty\ncommit,2\n",
        "; s1 1; 7.6",
    ),
    (
        b"nodeid,s1\nchannel,sale\nbatch,1\ntable,sale\nkeys,id\ncolumns,id,qty\ncommit,0\n",
        "; s1 1; 7.5",
    ),
    (
        b"nodeid,s1\nchannel,sale\nbatch,1\ntable,sale\nkeys,id\ncolumns,id,qty\ncommit\n",
        "; s1 1; 7.5",
    ),
    (
        b"nodeid,s1\nchannel,sale\nbatch,1\ntable,sale\nkeys,id\ncolumns,id,qty\ncommit,1,1\n",
        "; s1 1; 7.5",
    ),
    (
        b"nodeid,s1\nchannel,sale\nbatch,1\ntable,sale\nkeys,id\ncolumns,id,qty\ncommit,1\n\
          commit,1\n",
        "1:0; s1 1; 8.4",
    ),
    (
        b"schema,a\ncatalog\nstats_columns,a,b\nstats,1,2\nts,5\nnodeid,s1\nchannel,sale\n\
          batch,1\ntable,sale\nkeys,id\ncolumns,id,qty\nschema\ncatalog,x\nts,1\ncommit,1\n",
        "1:0; s1 6; clean",
    ),
    (b"sql,\"x\"\n", "; -; 1.3"),
    (b"bsh\n", "; -; 1.3"),
    (
        b"nodeid,s1\nchannel,sale\nbatch,1\ntable,sale\nkeys,id\ncolumns,id,qty\ncreate,x\n",
        "; s1 1; 7.3",
    ),
    (
        b"nodeid,s1\nchannel,sale\nbatch,1\ntable,sale\nkeys,id\ncolumns,id,qty\nold,1,2\nsql\n",
        "; s1 1; 8.3",
    ),
    (b"fly\n", "; -; 1.2"),
    (b"Insert,1\n", "; -; 1.2"),
    (b",nodeid\n", "; -; 1.2"),
    (b"\"\"\n", "; -; 1.2"),
    (
        b"nodeid,s1\nchannel,sale\nbatch,1\ntable,sale\nkeys,id\ncolumns,id,qty\nold,1,2\nfly\n",
        "; s1 1; 8.2",
    ),
    (b"nodeid,s1\nchannel,\"a\n", "; s1 1; 2.1"),
    (
        b"nodeid,s1\nchannel,sale\nbatch,1\ncommit,1\nchannel,a\"b\nbatch,x\n",
        "1:0; s1 1; 5.1",
    ),
    (b"nodeid,\xff\n", "; -; 1.1"),
    (
        b"nodeid,s1\nchannel,sale\nbatch,1\ncommit,1\n\"a\\n\"",
        "1:0; s1 1; 5.1",
    ),
    (
        b"nodeid,s1\nchannel,sale\nbatch,4\ncommit,4\nbatch,6\ncommit,6\nbatch,7\ntable,sale\n",
        "4:0 6:0; s1 1; 9.7",
    ),
    (
        b"nodeid,s1\nchannel,sale\nbatch,4\ntable,sale",
        "; s1 1; 5.7",
    ),
    (
        b"nodeid,s1\nchannel,sale\nbatch,1\ntable,sale\nkeys,id\ncolumns,id,qty\nold,1,2\n",
        "; s1 1; 8.7",
    ),
    (
        b"nodeid,s1\nchannel,sale\nbatch,1\ntable,sale\nkeys,id\ncolumns,id,qty\n\
          insert,\"a\nb\",2\n# note",
        "; s1 1; 10.7",
    ),
    (
        b"nodeid,s1\nchannel,sale\nbatch,1\ncommit,1",
        "1:0; s1 1; clean",
    ),
    (
        b"nodeid,s1\nstats_columns,a,b\nstats,1,2\nts,5\nchannel,sale\nbatch,1\ncommit,1\n",
        "1:0; s1 1; clean",
    ),
];
