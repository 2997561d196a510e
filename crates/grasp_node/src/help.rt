//! The texts of the program's own.

/// Where the words are no call of the program.
pub(crate) const USAGE_LINE: &str =
    "usage: grasp_node run|serve|init|store|check FILE, or status|events|talk|stop SOCKET; try --help";

pub(crate) const VERSION: &str = "grasp_node 0.2.0\n";

pub(crate) const HELP: &str = "\
Usage: grasp_node run FILE
       grasp_node serve FILE
       grasp_node init FILE
       grasp_node store FILE
       grasp_node check FILE
       grasp_node status|events|talk|stop SOCKET

  serve      runs the node that FILE configures until it is told to stop
  run        runs it for a number of turns, and writes what it holds, what came
             of its wants, and what floods told its readers
  init       makes the store that FILE names, with the prefixes of its roots; a
             file that is there is left alone
  store      writes what that store has: prefixes that are held or in doubt
  check      names what is wrong in FILE, each with its place, or with the store
             that it names, and runs nothing

  status     asks the node at the control socket SOCKET what it holds, how its
             wants stand, what its readers read and what it counted
  events     writes what happens at that node, a line each, until it ends
  talk       asks that node each line of standard input, and writes its answers
  stop       tells that node to stop, and waits until it has

  --help     prints this text
  --version  prints the version

For example:

  grasp_node init /etc/grasp_node.toml
  grasp_node serve /etc/grasp_node.toml
  grasp_node status /run/grasp_node/control

FILE is a TOML table of at most 65,536 bytes.

The exit status is 0 where the node made all its turns or was told to stop, and
where a client was answered; 2 for other words, 3 for a bad configuration, 4 for
a failed read or where no node answers, 5 for a failed write, 6 for want of
memory, 7 where FILE is too large, 8 where the node's sockets can't be opened, 9
for its store, and 10 for its control socket.
";
