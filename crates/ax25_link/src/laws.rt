//! Laws of a link, each the contract of a function that does nothing.

ghost use Rattle.ax25_link.specs.Laws.{DrainsLaw, OneMeaningLaw, PrefixLaw};
ghost use Rattle.ax25_link.specs.Runs.{BoundLaw, RunLaw, WholeRunLaw};
ghost use Rattle.ax25_link.specs.Stations.{StationsLaw};

/// Each N(R) has one meaning, and it is the one that is computed (AX.25 2.0, 2.3.2.4, 2.4.4.5).
pub fn one_meaning()
    ensures { OneMeaningLaw }
{}

/// Each end has nothing left to send after one list of frames, whatever was pushed and heard.
pub fn drains()
    ensures { DrainsLaw }
{}

/// An end stays the end of its two stations, and each frame that it sends is from its station to the other one, without
/// repeaters, with sequence numbers below the modulus (AX.25 2.0, 2.2.13, 2.3.2.4).
pub fn stations_law()
    ensures { StationsLaw }
{}

/// The prefix law, for each modulus m and each window k with 1 <= k < m. However frames of an attempt are lost,
/// delivered again, or delivered after later ones, as long as an I or S frame that is overtaken by a delivery of a
/// later one comes while at most m - 1 - k frames were sent after it: what an end has accepted is a prefix of what was
/// pushed at the other end, and neither end meets an N(R) of a frame that it never sent.
pub fn prefix_law()
    ensures { PrefixLaw }
{}

/// Two stations do whatever they may, in any order, from the answer to a SABM on: what each has accepted is a prefix of
/// what was pushed at the other.
pub fn whole_runs()
    ensures linked { RunLaw }
    ensures fronts { WholeRunLaw }
{}

/// The bound of m - 1 - k later frames is exact: for each modulus m and window k there is a run that keeps it, after
/// which a frame that comes with m - k frames sent after it shows a bad N(R).
pub fn exact_bound()
    ensures { BoundLaw }
{}
