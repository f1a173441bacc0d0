//! Worked sessions that ask for the document, in the form of the others.

/// A surface with a facet, one with a ring and a breakline, and an empty one.
pub(crate) const EXPORTS: &str = "\
the document of one facet
0 0 1, 0 10 -1, 10 0 -1
export|export 3 636 / \
<?xml version=\"1.0\" encoding=\"UTF-8\"?> / \
<LandXML xmlns=\"http://www.landxml.org/schema/LandXML-1.2\" version=\"1.2\" date=\"2000-01-01\" time=\"00:00:00\"> / \
<Units><Metric linearUnit=\"meter\"/></Units> / \
<Surfaces> / \
<Surface name=\"ground\"> / \
<SourceData> / \
<Boundaries> / \
</Boundaries> / \
<Breaklines> / \
</Breaklines> / \
<DataPoints><PntList3D> / \
0.000 0.000 1.000 / \
10.000 0.000 -1.000 / \
0.000 10.000 -1.000 / \
</PntList3D></DataPoints> / \
</SourceData> / \
<Definition surfType=\"TIN\"> / \
<Pnts> / \
<P id=\"1\">0.000 0.000 1.000</P> / \
<P id=\"2\">10.000 0.000 -1.000</P> / \
<P id=\"3\">0.000 10.000 -1.000</P> / \
</Pnts> / \
<Faces> / \
<F>1 3 2</F> / \
</Faces> / \
</Definition> / \
</Surface> / \
</Surfaces> / \
</LandXML>

the document of an empty surface
export|export 0 465 / \
<?xml version=\"1.0\" encoding=\"UTF-8\"?> / \
<LandXML xmlns=\"http://www.landxml.org/schema/LandXML-1.2\" version=\"1.2\" date=\"2000-01-01\" time=\"00:00:00\"> / \
<Units><Metric linearUnit=\"meter\"/></Units> / \
<Surfaces> / \
<Surface name=\"ground\"> / \
<SourceData> / \
<Boundaries> / \
</Boundaries> / \
<Breaklines> / \
</Breaklines> / \
<DataPoints><PntList3D> / \
</PntList3D></DataPoints> / \
</SourceData> / \
<Definition surfType=\"TIN\"> / \
<Pnts> / \
</Pnts> / \
<Faces> / \
</Faces> / \
</Definition> / \
</Surface> / \
</Surfaces> / \
</LandXML>

a ring is closed and stands before the breakline, and a facet that isn't kept is marked
0 0 0, 0 10 0, 10 0 0, 10 10 4
do line break 10 0 0 10|done 5 line 1
do line void 0 0 0 10 10 0|done 6 line 2
export|export 6 958 / \
<?xml version=\"1.0\" encoding=\"UTF-8\"?> / \
<LandXML xmlns=\"http://www.landxml.org/schema/LandXML-1.2\" version=\"1.2\" date=\"2000-01-01\" time=\"00:00:00\"> / \
<Units><Metric linearUnit=\"meter\"/></Units> / \
<Surfaces> / \
<Surface name=\"ground\"> / \
<SourceData> / \
<Boundaries> / \
<Boundary bndType=\"void\" edgeTrim=\"false\"><PntList3D>0.000 0.000 0.000 0.000 10.000 0.000 10.000 0.000 0.000 0.000 0.000 0.000</PntList3D></Boundary> / \
</Boundaries> / \
<Breaklines> / \
<Breakline brkType=\"standard\"><PntList3D>10.000 0.000 0.000 0.000 10.000 0.000</PntList3D></Breakline> / \
</Breaklines> / \
<DataPoints><PntList3D> / \
0.000 0.000 0.000 / \
10.000 0.000 0.000 / \
0.000 10.000 0.000 / \
10.000 10.000 4.000 / \
</PntList3D></DataPoints> / \
</SourceData> / \
<Definition surfType=\"TIN\"> / \
<Pnts> / \
<P id=\"1\">0.000 0.000 0.000</P> / \
<P id=\"2\">10.000 0.000 0.000</P> / \
<P id=\"3\">0.000 10.000 0.000</P> / \
<P id=\"4\">10.000 10.000 4.000</P> / \
</Pnts> / \
<Faces> / \
<F i=\"1\">1 3 2</F> / \
<F>2 3 4</F> / \
</Faces> / \
</Definition> / \
</Surface> / \
</Surfaces> / \
</LandXML>";
